//! What is left of a page.
ghost use Rattle.std.specs.Prelude.{◌≡◌, ◌↔◌, [], ◌∷◌, ◌++◌, length, IsTrue, MatchOption};
ghost use Rattle.js_call_streams.specs.Page.{items_of, first_given};

use js_base::Items;
use std::alloc::Global;
use std::marker::Model;

/// What is left of a page. Contracts see it as a list.
#[derive(Drop)]
pub struct Rest<T> {
    items: Vec<T>,
}

impl<T> Model for Rest<T> {
    ghost use Rattle.std.specs.Prelude.{List};

    ghost Value = { List T };

    ghost view = { λ rest. rest.items.items };
}

impl<T> Rest<T> {
    /// An empty rest. Takes no memory.
    pub(crate) fn new(alloc: Global) -> Rest<T>
        ensures { result ≡ [] }
    {
        Rest {
            items: Vec::new(alloc),
        }
    }

    /// The items of a page. A server may leave out the list.
    pub(crate) fn of_page(alloc: Global, streams: Option<Items<T>>) -> Rest<T>
        ensures { result ≡ items_of streams }
    {
        match streams {
            None => Rest::new(alloc),
            Some(items) => Rest {
                items: items.into_vec(),
            },
        }
    }

    /// Returns how many items are left.
    pub(crate) fn len(&self) -> u64
        ensures { result ≡ length self.now }
    {
        self.items.len() as u64
    }

    pub(crate) fn is_empty(&self) -> bool
        ensures { IsTrue result ↔ (self.now ≡ []) }
    {
        self.items.is_empty()
    }

    /// Takes the last item.
    pub(crate) fn pop(&mut self) -> Option<T>
        ensures { MatchOption result ((self.old ≡ []) × (self.new ≡ [])) (λ item. self.old ≡ self.new ++ item ∷ []) }
    {
        self.items.pop()
    }
}

/// Returns the first item that a page gives, which is its last one.
#[tactic(auto, using(crate::proofs::FirstItem::first_is_last))]
pub(crate) fn first_of<T: Drop>(streams: Option<Items<T>>) -> Option<T>
    ensures { result ≡ first_given (items_of streams) }
{
    match streams {
        None => None,
        Some(items) => {
            let mut rest = Rest {
                items: items.into_vec(),
            };
            let first = rest.pop();
            drop(rest);
            first
        }
    }
}
