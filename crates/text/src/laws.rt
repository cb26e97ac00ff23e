//! What holds of the words of every text, and of every number of 32 bits. The calls compute nothing: their contracts are the laws.
ghost use Rattle.text.specs.Laws.{WordsStand, WordsAreAll, NumbersReadBack};

/// Every word stands in the line and at the column that are told of it.
pub fn words_stand()
    ensures { WordsStand }
{}

/// The words of a text have all its bytes but blanks and the ends of lines, in their order.
pub fn words_are_all()
    ensures { WordsAreAll }
{}

/// What is printed of a number of 32 bits is read as that number.
pub fn numbers_read_back()
    ensures { NumbersReadBack }
{}
