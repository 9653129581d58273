// Numbers that look random, from a seed.
ghost use Rattle.std.specs.Prelude.{◌≡◌, ◌/◌, ◌^◌};
ghost use Rattle.spasm_words.specs.Generator.{next_state};

// A linear congruential generator, by its state.
#[derive(Debug, Drop)]
pub(crate) struct RandomNumbers {
    state: u64,
}

impl RandomNumbers {
    // The numbers that come of a seed.
    pub(crate) fn new(seed: u64) -> RandomNumbers
        ensures { result.state ≡ seed }
    {
        RandomNumbers { state: seed }
    }

    // The next number, below 2^31.
    pub(crate) fn next(&mut self) -> u64
        ensures state { self.new.state ≡ next_state self.old.state }
        ensures number { result ≡ self.new.state / 2 ^ 33 }
    {
        self.state = self
            .state
            .wrapping_mul(6_364_136_223_846_793_005)
            .wrapping_add(1_442_695_040_888_963_407);
        self.state >> 33
    }
}
