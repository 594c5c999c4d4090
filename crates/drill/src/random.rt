// A seeded generator, so that every run takes the same steps.
ghost use Rattle.std.specs.Prelude.{◌<◌, IfSome};

#[derive(Drop)]
pub struct Random {
    state: u64,
}

impl Random {
    pub fn new(seed: u64) -> Random {
        Random { state: seed }
    }

    pub fn draw(&mut self) -> u64 {
        self.state = self
            .state
            .wrapping_mul(6364136223846793005)
            .wrapping_add(1442695040888963407);
        self.state >> 33
    }

    // An index of a list that has so many items, unless it is empty.
    pub fn index(&mut self, len: usize) -> Option<usize>
        ensures { IfSome result (λ i. i < len) }
    {
        if len == 0 {
            return None;
        }
        Some((self.draw() % len as u64) as usize)
    }
}
