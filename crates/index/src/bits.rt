// Masks of variables: bit v of a mask stands for variable v.
ghost use Rattle.std.specs.Prelude.{◌≡◌, ◌<◌};
ghost use Rattle.word.specs.Limits as Max;
ghost use Rattle.index.specs.Bits.{bit_in, one_bit};

use word::MAX_VARIABLES;

// The mask of variable v alone; none past the last variable, as for the class of a table without one.
pub fn one_bit(v: usize) -> u32
    ensures { result ≡ one_bit v }
{
    if MAX_VARIABLES <= v {
        return 0;
    }
    1u32 << v
}

pub fn bit(m: u32, b: usize) -> bool
    requires { b < Max.max_variables }
    ensures { result ≡ bit_in m b }
{
    (m >> b) & 1 == 1
}
