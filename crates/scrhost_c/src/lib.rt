// The machine host for C. include/scr.h declares both functions.
#![tactic(auto)]

ghost use Rattle.std.specs.Prelude.{◌≡◌};
ghost use Rattle.meaning.specs.Host.{host_check_of, host_step_of};

// 0, or the number of the refusal.
#[unsafe(no_mangle)]
pub extern "C" fn scr_check(bytes: &[u8]) -> u32
    ensures { result ≡ host_check_of bytes.now }
{
    scrhost::scr_check(bytes)
}

// The next state, or 2^31 plus the number of the refusal.
#[unsafe(no_mangle)]
pub extern "C" fn scr_step(bytes: &[u8], state: u32, event: u32) -> u32
    ensures { result ≡ host_step_of bytes.now state event }
{
    scrhost::scr_step(bytes, state, event)
}
