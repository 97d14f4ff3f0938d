//! An order of one's own.
ghost use Rattle.std.specs.Prelude.{IsPermutation};

/// A number that this one leads to, as by chance.
fn next_chance(chance: u64) -> u64 {
    chance
        .wrapping_mul(6_364_136_223_846_793_005)
        .wrapping_add(1_442_695_040_888_963_407)
}

/// Puts the values into an order that the seed makes, as by chance. Each stays, once.
pub fn shuffle<T>(values: &mut [T], seed: u64)
    ensures { IsPermutation values.old values.new }
{
    let mut chance = next_chance(seed);
    for place in 1..values.len() {
        chance = next_chance(chance);
        let other = (chance >> 33) as usize % (place + 1);
        values.swap(place, other);
    }
}
