// A new link.
ghost use Rattle.std.specs.Prelude.{◌≡◌};
ghost use Rattle.air_answer.specs.Record.{fresh};
ghost use Rattle.air_answer.specs.Fresh.{opened};

use crate::record::{AirLink, make};
use link::moves::TIMERS;
use link::watch::setting_ok;
use refusals::BAD_SETTING;

// `refusal` is 0, or 3 beside a record of zeros, which every call refuses with 29.
#[derive(Drop)]
pub struct Opened {
    pub refusal: u8,
    pub link: AirLink,
}

// Everything IDLE, no timer running.
#[tactic(auto, unfolding(crate::specs::Record::fresh, link::specs::Step::rest_at))]
pub fn idle_link(setting: u32) -> AirLink
    ensures { result ≡ fresh setting }
{
    make(setting, [0; TIMERS], [0; 5])
}

// A link from EM3's setting, 1..86,400 seconds.
#[tactic(auto, unfolding(crate::specs::Fresh::opened))]
pub fn open(setting: u32) -> Opened
    ensures { result ≡ opened setting }
{
    if setting_ok(setting) {
        let link = idle_link(setting);
        return Opened { refusal: 0, link };
    }
    let link = idle_link(0);
    Opened {
        refusal: BAD_SETTING,
        link,
    }
}
