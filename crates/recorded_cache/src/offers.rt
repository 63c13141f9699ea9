// The offers made since the opening: what the list of a row is compared with beside bytes.
ghost use Rattle.std.specs.Prelude.{◌≡◌, ◌+◌, min, cond, None, nat_lt, slice_get, slice_set};

// An offer: the length of its body, and the clock reading.
#[derive(Clone, Copy, PartialEq, Eq)]
pub struct Offer {
    pub len: u64,
    pub clock: u64,
}

// So many offers of a list are kept: no list has a later one.
pub const KEPT: usize = 256;

// The first offers, and how many were made.
#[derive(Clone, Copy)]
pub struct Offered {
    pub first: [Offer; KEPT],
    pub made: u64,
}

impl Offered {
    // No offer was made.
    pub fn new() -> Self
        ensures { result.made ≡ 0 }
    {
        Self {
            first: [Offer { len: 0, clock: 0 }; KEPT],
            made: 0,
        }
    }

    // Offer k, if it was made and is kept.
    pub fn get(&self, k: u64) -> Option<Offer>
        ensures { result ≡ cond (nat_lt k self.now.made) (slice_get self.now.first k) None }
    {
        if k < self.made {
            self.first.get(k as usize).copied()
        } else {
            None
        }
    }

    // Adds an offer.
    #[tactic(auto, using(std::proofs::lemmas::List::set_past))]
    pub fn push(&mut self, offer: Offer)
        ensures kept { self.new.first ≡ slice_set self.old.first self.old.made offer }
        ensures counted { self.new.made ≡ min (self.old.made + 1) 18446744073709551615 }
    {
        if self.made < KEPT as u64 {
            self.first[self.made as usize] = offer;
        }
        self.made = self.made.saturating_add(1);
    }
}
