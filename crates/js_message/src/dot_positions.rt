//! One pass over the bytes of a text: the places of its dots, and the tokens between them.
ghost use Rattle.std.specs.Prelude.{◌≡◌, ℕ, ◌+◌, ◌-◌, ◌<◌, ◌≤◌, ◌^◌, ◌++◌, ◌∷◌, [], List, length, slice_get, slice_index};
ghost use Rattle.std.specs.Option.{option_copied};
ghost use Rattle.js_base.specs.Subject.{tokens};
ghost use Rattle.js_message.specs.AckSubject.{token_at};
ghost use Rattle.js_message.specs.DotPositions.{IsScanned, Keeps, dots_of, token_end, token_start};

/// The dots of a text: the places of the first ten, which are enough to cut all tokens that are
/// read, and how many dots the text has.
#[derive(Clone, Copy)]
pub(crate) struct Dots {
    places: [usize; 10],
    count: usize,
}

impl Dots {
    // The dots of a text.
    pub(crate) fn of(text: &str) -> Dots
        ensures { IsScanned text.now result }
    {
        let mut dots = Dots {
            places: [0; 10],
            count: 0,
        };
        for (place, byte) in text.as_bytes().iter().enumerate() {
            if *byte == b'.' {
                dots.add(place);
            }
        }
        dots
    }

    // Counts one more dot, and keeps its place while there is room.
    fn add(&mut self, place: usize)
        requires { self.old.count < 2 ^ 63 }
        ensures { (places : List ℕ) → Keeps places self.old → Keeps (places ++ place ∷ []) self.new }
    {
        let before = self.count;
        self.count += 1;
        if before < 10 {
            self.places[before] = place;
        }
    }

    // How many dots the text has.
    pub(crate) fn count(&self) -> usize
        ensures { result ≡ self.now.count }
    {
        self.count
    }

    // Where a token begins.
    #[tactic(auto, using(crate::proofs::Cuts::later_start))]
    fn start(&self, k: usize) -> usize
        requires kept { k < 10 }
        requires fits { 0 < k → slice_index self.now.places (k - 1) < 2 ^ 63 }
        ensures { (places : List ℕ) → Keeps places self.now → k ≤ self.now.count → result ≡ token_start places k }
    {
        if k == 0 { 0 } else { self.places[k - 1] + 1 }
    }

    // Where a token ends.
    fn end(&self, text: &str, k: usize) -> usize
        requires kept { k < 10 }
        ensures { (places : List ℕ) → Keeps places self.now → result ≡ token_end places (length text.now) k }
    {
        if k < self.count {
            self.places[k]
        } else {
            text.len()
        }
    }

    // The token of a number, counted from 0, of the text whose dots these are.
    pub(crate) fn token<'a>(&self, text: &'a str, k: usize) -> &'a str
        requires dots { IsScanned text.now self.now }
        requires within { k ≤ self.now.count }
        requires kept { k < 10 }
        ensures { result.now ≡ token_at k (tokens text.now) }
    {
        let start = self.start(k);
        let end = self.end(text, k);
        &text[start..end]
    }

    // The same, where the text has so many.
    pub(crate) fn get<'a>(&self, text: &'a str, k: usize) -> Option<&'a str>
        requires dots { IsScanned text.now self.now }
        requires kept { k < 10 }
        ensures { option_copied result ≡ slice_get (tokens text.now) k }
    {
        if k <= self.count {
            Some(self.token(text, k))
        } else {
            None
        }
    }
}
