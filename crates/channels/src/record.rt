// The record of one plane: its description's place, its colour, and how many components it covers.
ghost use Rattle.std.specs.Prelude.{◌≡◌, List, ℕ, ◌<◌};
ghost use Rattle.std.proofs.Math.Option.{none};
ghost use Rattle.format.specs.Numbers.{below32};
ghost use Rattle.format.specs.Channels.{empty_channel, with_text, with_color, channel_of, plane_record};
ghost use Rattle.format.specs.declared.Entry.{Entry};
ghost use Rattle.number.specs.Readings.{natural};
ghost use Rattle.lookup.specs.Values.{field_meaning};
ghost use Rattle.lookup.specs.View.{bytes, entries};

use format::Channel;
use lookup::{ClxValue, Tree};

// A record with a name and no colour. State: 1 where there is a name.
#[tactic(auto, unfolding(format::specs::Channels::with_color))]
fn named(state: u64, at: u64, units: u64) -> Channel
    ensures { result ≡ with_color none state at units }
{
    Channel {
        named: state,
        name: at,
        units,
        colored: 0,
        red: 0,
        green: 0,
        blue: 0,
    }
}

// An empty record.
#[tactic(auto, unfolding(format::specs::Channels::empty_channel, format::specs::Channels::with_color))]
pub fn no_channel() -> Channel
    ensures { result ≡ empty_channel }
{
    named(0, 0, 0)
}

// The record of a description: text of one unit or more is a name.
#[tactic(auto, unfolding(format::specs::Channels::with_text, lookup::specs::Values::field_meaning, lookup::specs::Values::meaning))]
fn described(f: Option<ClxValue>) -> Channel
    ensures { (s : List ℕ) (es : List Entry) → result ≡ with_text (field_meaning s es f) (with_color none) }
{
    match f {
        Some(ClxValue::Text(at, n)) if n != 0 => named(1, at, n),
        _ => named(0, 0, 0),
    }
}

// The record with a colour, its lowest byte as red: none where it cannot be read below 2^32.
#[tactic(auto, unfolding(format::specs::Numbers::below32, format::specs::Channels::with_color))]
fn colored(c: Channel, color: Option<u64>) -> Channel
    ensures { result ≡ with_color (below32 (natural color)) c.named c.name c.units }
{
    match color {
        Some(v) if v <= 0xFFFF_FFFF => Channel {
            colored: 1,
            red: v % 256,
            green: v / 256 % 256,
            blue: v / 65536 % 256,
            ..c
        },
        _ => named(c.named, c.name, c.units),
    }
}

// The record of the plane whose level is entry i.
pub fn channel_of(tree: Tree, i: usize) -> Channel
    requires { i < tree.used }
    ensures { result ≡ channel_of (bytes tree.entry) (entries tree.entry) i }
{
    let c = described(tree.get(i + 1, b"sDescription"));
    colored(c, tree.get_as::<u64>(i + 1, b"uiColor"))
}

// How many components the plane whose level is entry i covers: 1 where its uiCompCount is 0 or absent.
pub fn covers_of(tree: Tree, i: usize) -> u64
    requires { i < tree.used }
    ensures { result ≡ (plane_record (bytes tree.entry) (entries tree.entry) i).covers }
{
    let count = tree.get_as::<u64>(i + 1, b"uiCompCount");
    count.unwrap_or(0).max(1)
}
