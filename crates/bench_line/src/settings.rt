// The settings of a `set` line.
ghost use Rattle.std.specs.Prelude.{◌≡◌};
ghost use Rattle.bench_line.specs.Settings.{settings_in};

use link::moves::TIMERS;
use text::digits::number_step;

// A whole number for each timer, each after one space, and then the end.
pub fn parse_settings(s: &[u8]) -> Option<[u32; TIMERS]>
    ensures { result ≡ settings_in s.now }
{
    let mut list = [0u32; TIMERS];
    let mut at = 0;
    for setting in list.iter_mut() {
        let n = number_step(&s[at..])?;
        *setting = n.value;
        at += n.used;
    }
    if at == s.len() { Some(list) } else { None }
}
