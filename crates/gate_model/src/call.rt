//! A call as data, so that a list of calls can be played.
use crate::conversion::Request;
use crate::line::Line;
use crate::phase::Window;
use books::Key;
use hours::Period;

/// The window that a call shows: the one that the last opening gave (or, to an award and an ending, the closed one that the
/// last closing gave), or another.
// no `Option`: its `None` would read as no window, where `Held` is one
#[derive(Clone, Copy)]
pub enum Showing {
    Held,
    Other(Window),
}

/// Every call of the gate, and the two questions that a list of calls may mix in. `B` is what comes with a new book.
#[derive(Drop)]
pub enum Call<B> {
    Post {
        customer: u8,
        cents: i64,
    },
    Return {
        customer: u8,
        cents: i64,
    },
    Charge {
        customer: u8,
        twelfths: i64,
    },
    Invoice {
        customer: u8,
    },
    Pay {
        customer: u8,
    },
    Open(Period),
    Submit {
        window: Showing,
        customer: u8,
        lines: Vec<Line>,
    },
    Convert {
        window: Showing,
        customer: u8,
        requests: Vec<Request>,
    },
    Close(Showing),
    Award {
        window: Showing,
        item: u32,
        megawatts: u32,
        price: i64,
    },
    End(Showing),
    Transfer {
        seller: u8,
        buyer: u8,
        right: u32,
        megawatts: u32,
    },
    Turn,
    NewBook(B),
    /// what the book in force answers for a key
    Price(Key),
    /// what a customer's position requires
    Total {
        customer: u8,
    },
}
