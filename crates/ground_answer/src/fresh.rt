// A new link.
ghost use Rattle.std.specs.Prelude.{◌≡◌};
ghost use Rattle.ground_answer.specs.Record.{fresh};
ghost use Rattle.ground_answer.specs.Fresh.{opened};

use crate::record::{Link, make};
use ground_tables::intervals::no_intervals;
use link::moves::TIMERS;
use link::watch::settings_ok;
use refusals::BAD_SETTING;

// `refusal` is 0, or 3 beside a record of zeros, which every call refuses with 29.
#[derive(Drop)]
pub struct Opened {
    pub refusal: u8,
    pub link: Link,
}

// Everything IDLE, no timer running.
#[tactic(auto, unfolding(crate::specs::Record::fresh, link::specs::Step::rest_at))]
pub fn idle_link(setting: [u32; TIMERS]) -> Link
    ensures { result ≡ fresh setting }
{
    make(setting, [0; TIMERS], [0; 5], no_intervals())
}

// A link from the ten settings in watch order, each 1..86,400 seconds.
#[tactic(auto, unfolding(crate::specs::Fresh::opened))]
pub fn open(setting: [u32; TIMERS]) -> Opened
    ensures { result ≡ opened setting }
{
    if settings_ok(setting) {
        let link = idle_link(setting);
        return Opened { refusal: 0, link };
    }
    let link = idle_link([0; TIMERS]);
    Opened {
        refusal: BAD_SETTING,
        link,
    }
}
