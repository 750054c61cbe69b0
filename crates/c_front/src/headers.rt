// The headers of the dialect: eight texts, by name; a file each.
mod audio;
mod input;
mod math;
mod memcard;
mod misc;
mod string;
mod time;
mod video;

ghost use Rattle.std.specs.Prelude.{◌≡◌, not};
ghost use Rattle.std.specs.List.{list_any};
ghost use Rattle.std.specs.Option.{is_none, option_map};
ghost use Rattle.std.specs.Str.{bytes_eq};
ghost use Rattle.c_front.specs.Headers.{header_names, text_of};

use crate::headers::audio::AUDIO;
use crate::headers::input::INPUT;
use crate::headers::math::MATH;
use crate::headers::memcard::MEMCARD;
use crate::headers::misc::MISC;
use crate::headers::string::STRING;
use crate::headers::time::TIME;
use crate::headers::video::VIDEO;

/// The text of the C header of that name; none where the name is none of the eight.
#[tactic(auto, unfolding(crate::specs::Headers::text_of, crate::specs::Headers::headers, crate::specs::Headers::header_names))]
pub fn header(name: &str) -> Option<&'static str>
    ensures none { is_none result ≡ not (list_any (bytes_eq name.now) header_names) }
    ensures some { option_map (λ t. t.now) result ≡ text_of name.now }
{
    match name {
        "video.h" => Some(VIDEO),
        "audio.h" => Some(AUDIO),
        "input.h" => Some(INPUT),
        "time.h" => Some(TIME),
        "math.h" => Some(MATH),
        "memcard.h" => Some(MEMCARD),
        "string.h" => Some(STRING),
        "misc.h" => Some(MISC),
        _ => None,
    }
}
