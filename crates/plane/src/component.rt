// The samples of one component, copied out of the rows of a frame; planes and sheets are made of it.
ghost use Rattle.std.specs.Prelude.{◌≡◌, ◌/◌, length};
ghost use Rattle.format.specs.Bytes.{over};
ghost use Rattle.plane.specs.Found.{plane_in, Fit};

use crate::copy::copy_whole;
use crate::gather::gather_rows;
use format::Summary;

// Copies the samples of a frame that has one component: its rows without their padding.
fn copy_rows(rows: &[u8], u: Summary, c: u64, samples: &mut [u8], lead: usize)
    requires { (u.components ≡ 1) × Fit u c (length rows.now) (length samples.old) }
    ensures { samples.new ≡ over (plane_in u c rows.now) samples.old }
{
    let w = u.width as usize * (u.bits / 8) as usize;
    copy_whole(rows, samples, u.stride as usize, w, u.height as usize, lead);
}

// Copies the samples of SIZE bytes of component c, of so many, out of the rows of a frame.
fn gather_samples<const SIZE: usize>(
    rows: &[u8],
    u: Summary,
    c: u64,
    components: usize,
    samples: &mut [u8],
)
    requires { (components ≡ u.components) × (SIZE ≡ u.bits / 8) × Fit u c (length rows.now) (length samples.old) }
    ensures { samples.new ≡ over (plane_in u c rows.now) samples.old }
{
    gather_rows::<SIZE>(
        rows,
        samples,
        u.stride as usize,
        c as usize * SIZE,
        components * SIZE,
        u.width as usize,
        u.height as usize,
    );
}

// Copies the samples of component c of so many. It is compiled for each number that it is called with.
#[inline(always)]
fn gather_by_bits(rows: &[u8], u: Summary, c: u64, components: usize, samples: &mut [u8])
    requires { (components ≡ u.components) × Fit u c (length rows.now) (length samples.old) }
    ensures { samples.new ≡ over (plane_in u c rows.now) samples.old }
{
    match u.bits {
        8 => gather_samples::<1>(rows, u, c, components, samples),
        16 => gather_samples::<2>(rows, u, c, components, samples),
        _ => gather_samples::<4>(rows, u, c, components, samples),
    }
}

// Copies the samples of component c of two: with the step as a literal.
fn gather_of_two(rows: &[u8], u: Summary, c: u64, samples: &mut [u8])
    requires { (u.components ≡ 2) × Fit u c (length rows.now) (length samples.old) }
    ensures { samples.new ≡ over (plane_in u c rows.now) samples.old }
{
    gather_by_bits(rows, u, c, 2, samples);
}

// Copies the samples of component c of any number. It is a function of its own, since the literal is lost where one has both calls.
fn gather_of_many(rows: &[u8], u: Summary, c: u64, samples: &mut [u8])
    requires { Fit u c (length rows.now) (length samples.old) }
    ensures { samples.new ≡ over (plane_in u c rows.now) samples.old }
{
    gather_by_bits(rows, u, c, u.components as usize, samples);
}

// Copies the samples of component c: whole rows where there is no other, and else sample by sample. Where all are one run, `lead` bytes of it are copied
// first.
pub fn copy_samples(rows: &[u8], u: Summary, c: u64, samples: &mut [u8], lead: usize)
    requires { Fit u c (length rows.now) (length samples.old) }
    ensures { samples.new ≡ over (plane_in u c rows.now) samples.old }
{
    match u.components {
        1 => copy_rows(rows, u, c, samples, lead),
        2 => gather_of_two(rows, u, c, samples),
        _ => gather_of_many(rows, u, c, samples),
    }
}
