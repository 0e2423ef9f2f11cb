// A frame's attributes: the five numbers of SLxImageAttributes, and the rules of sizes, over any 64-bit numbers.
#![tactic(auto)]

ghost use Rattle.std.specs.Prelude.{◌≡◌, ◌*◌, ◌≤◌, ltb};
ghost use Rattle.format.specs.Bytes.{most64};
ghost use Rattle.format.specs.Numbers.{below32};
ghost use Rattle.format.specs.Attributes.{bad_shape, bad_bits, plane_bytes, uncompressed, attributes};
ghost use Rattle.lookup.specs.View.{bytes, entries};
ghost use Rattle.number.specs.Readings.{natural, integer};
ghost use Rattle.attributes.specs.Parsed.{answer, five_of, judged_by, attributes_in};

use format::Attributes;
use format::refusal::Refusal;
use lookup::Tree;

// What eCompression says of frames that are not compressed.
const COMPRESSION_NONE: i64 = 2;

// Frames may have this many components.
pub const MAX_COMPONENTS: u64 = 1024;

// Whether x * y * z is over `most`, by division: the product may pass 64 bits.
#[tactic(auto, using(crate::proofs::Products::by_division))]
pub fn product_over(x: u64, y: u64, z: u64, most: u64) -> bool
    ensures { result ≡ ltb most (x * y * z) }
{
    x != 0 && y != 0 && most / x / y < z
}

// Bits that no sample has: others than 8, 16 and 32.
#[tactic(auto, unfolding(format::specs::Attributes::bad_bits))]
pub fn bad_bits(bits: u64) -> bool
    ensures { result ≡ bad_bits bits }
{
    !matches!(bits, 8 | 16 | 32)
}

// A zero size, too many components, or a row that its bytes do not hold.
#[tactic(auto, unfolding(format::specs::Attributes::bad_shape))]
pub fn bad_shape(a: Attributes) -> bool
    ensures { result ≡ bad_shape a }
{
    a.width == 0
        || a.height == 0
        || a.components == 0
        || MAX_COMPONENTS < a.components
        || product_over(a.width, a.components, a.bits / 8, a.stride)
}

// A plane of more than 2^64 - 1 bytes.
pub fn bad_plane(a: Attributes) -> bool
    ensures { result ≡ ltb most64 (plane_bytes a) }
{
    product_over(a.width, a.height, a.bits / 8, u64::MAX)
}

// ---- from the readings

// A number that a u32 holds.
#[tactic(auto, unfolding(format::specs::Numbers::below32))]
fn to_u32(n: Option<u64>) -> Option<u64>
    ensures { natural result ≡ below32 (natural n) }
{
    n.filter(|x| *x < 0x1_0000_0000)
}

// Whether the frames are not compressed.
#[tactic(auto, unfolding(format::specs::Attributes::uncompressed))]
fn is_plain(compression: Option<i64>) -> bool
    ensures { result ≡ uncompressed (integer compression) }
{
    compression == Some(COMPRESSION_NONE)
}

// The five numbers, all of which have to be there.
#[tactic(auto, unfolding(crate::specs::Parsed::five_of, format::specs::Answer::and_then, format::specs::Answer::or_refuse))]
fn five(
    width: Option<u64>,
    stride: Option<u64>,
    height: Option<u64>,
    components: Option<u64>,
    bits: Option<u64>,
) -> Result<Attributes, Refusal>
    ensures { answer result ≡ five_of (natural width) (natural stride) (natural height) (natural components) (natural bits) }
{
    Ok(Attributes {
        width: width.ok_or(Refusal::Missing)?,
        stride: stride.ok_or(Refusal::Missing)?,
        height: height.ok_or(Refusal::Missing)?,
        components: components.ok_or(Refusal::Missing)?,
        bits: bits.ok_or(Refusal::Missing)?,
    })
}

// The attributes, or the first of 12 to 14 that holds; `plain` says that there is no compression.
#[tactic(auto, unfolding(crate::specs::Parsed::judged_by, format::specs::Answer::refuse_if))]
fn judged(plain: bool, a: Attributes) -> Result<Attributes, Refusal>
    ensures { answer result ≡ judged_by plain a }
{
    if !plain {
        return Err(Refusal::Compression);
    }
    if bad_bits(a.bits) {
        return Err(Refusal::Bits);
    }
    if bad_shape(a) {
        return Err(Refusal::FrameShape);
    }
    Ok(a)
}

// ---- from the tree

// The attributes in a level.
fn attributes_in(tree: Tree, parent: usize) -> Result<Attributes, Refusal>
    requires { parent ≤ tree.used }
    ensures { answer result ≡ attributes_in (bytes tree.entry) (entries tree.entry) parent }
{
    let width = tree.get_as::<u64>(parent, b"uiWidth");
    let stride = tree.get_as::<u64>(parent, b"uiWidthBytes");
    let height = tree.get_as::<u64>(parent, b"uiHeight");
    let components = tree.get_as::<u64>(parent, b"uiComp");
    let bits = to_u32(tree.get_as::<u64>(parent, b"uiBpcInMemory"));
    let plain = is_plain(tree.get_as::<i64>(parent, b"eCompression"));
    let a = five(width, stride, height, components, bits)?;
    judged(plain, a)
}

// The attributes of a tree that was read whole.
pub fn parse_attributes(tree: Tree) -> Result<Attributes, Refusal>
    ensures { answer result ≡ attributes (bytes tree.entry) (entries tree.entry) }
{
    let i = tree
        .get_level(0, b"SLxImageAttributes")
        .ok_or(Refusal::Missing)?;
    attributes_in(tree, i + 1)
}
