//! The random stream.
ghost use Rattle.std.specs.Prelude.{◌≡◌};
ghost use Rattle.machine_state.specs.Random.{next_random as next_random_spec};

/// The number of the random stream behind this one; its 8 bytes, the lowest first, are a draw.
pub fn next_random(number: u64) -> u64
    ensures { result ≡ next_random_spec number }
{
    number
        .wrapping_mul(6_364_136_223_846_793_005)
        .wrapping_add(1_442_695_040_888_963_407)
}
