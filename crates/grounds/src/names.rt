// A ground, its byte in a lent buffer, and its word (docs/RULES.md, "The ground of a beat"). They are functions, since an impl of
// `From` would stand where the type does, in model, away from what writes and reads the bytes.
ghost use Rattle.std.specs.Prelude.{◌≡◌};
ghost use Rattle.model.specs.Grounds as def;

use model::Ground;

pub fn ground_byte(g: Ground) -> u8
    ensures { result ≡ def.ground_byte g }
{
    match g {
        Ground::BufferHit => 1,
        Ground::Sequential => 2,
        Ground::ByFlag => 3,
        Ground::ByBlock => 4,
        Ground::ByAddress => 5,
        Ground::EwramBus => 6,
        Ground::SramBus => 7,
        Ground::VideoBus => 8,
        Ground::Fast => 9,
    }
}

// What a byte says; any but these nine says that there is no beat.
#[tactic(auto, unfolding(model::specs::Grounds::beat_ground))]
pub fn beat_ground(byte: u8) -> Option<Ground>
    ensures { result ≡ def.beat_ground byte }
{
    match byte {
        1 => Some(Ground::BufferHit),
        2 => Some(Ground::Sequential),
        3 => Some(Ground::ByFlag),
        4 => Some(Ground::ByBlock),
        5 => Some(Ground::ByAddress),
        6 => Some(Ground::EwramBus),
        7 => Some(Ground::SramBus),
        8 => Some(Ground::VideoBus),
        9 => Some(Ground::Fast),
        _ => None,
    }
}

// A word of its own, without spaces.
pub fn ground_name(g: Ground) -> &'static str
    ensures { result.now ≡ def.ground_name g }
{
    match g {
        Ground::BufferHit => "hit",
        Ground::Sequential => "seq",
        Ground::ByFlag => "flag",
        Ground::ByBlock => "block",
        Ground::ByAddress => "address",
        Ground::EwramBus => "ewram",
        Ground::SramBus => "sram",
        Ground::VideoBus => "video",
        Ground::Fast => "fast",
    }
}
