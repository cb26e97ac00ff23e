//! The law of the model, as the promise of a function.
ghost use Rattle.std.specs.Prelude.{List};
ghost use Rattle.gate_model.specs.Calls.{Call};
ghost use Rattle.gate_model.specs.Law.{Law};
ghost use Rattle.gate_model.specs.Measures.{Prices};

/// The law holds of every list of calls on every book.
pub fn law_stands()
    ensures { (p : Prices) (calls : List Call) → Law p calls }
{}
