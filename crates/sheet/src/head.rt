// What stands in a sheet before its strip: the header of a TIFF file, a directory of thirteen fields, and the two resolutions.
ghost use Rattle.std.specs.Prelude.{◌≡◌, ◌+◌, ◌*◌, ◌≤◌, length};
ghost use Rattle.std.proofs.lemmas.List.Edits.{sets};
ghost use Rattle.format.specs.Bytes.{over, each};
ghost use Rattle.format.specs.Sheets.{tiff_header, type_number, value_bytes, field_bytes, rational_bytes, sample_format, sheet_fields, sheet_head};
ghost use Rattle.sheet.specs.Fields.{type_of, field_of};
ghost use Rattle.sheet.specs.Fits.{Fits};

use cursor::put;

// The bytes before the strip.
pub const HEAD_BYTES: usize = 186;

// "II": the numbers of the file are little-endian.
const BYTE_ORDER: u64 = 0x4949;

// ---- fields

// The types of values, with their numbers. The value of a field with a rational is the place where it stands.
#[derive(Clone, Copy)]
enum Kind {
    Short = 3,
    Long = 4,
    Rational = 5,
}

// A field with one value: its tag, its type, and the value.
#[derive(Clone, Copy)]
struct Field(u64, Kind, u64);

// Stores a value of two bytes with zeros in the two that it leaves, or one of four.
fn put_value(d: &mut [u8], at: usize, kind: Kind, value: u64)
    requires { at + 4 ≤ length d.old }
    ensures { d.new ≡ sets d.old at (value_bytes (type_of kind) value) }
{
    match kind {
        Kind::Short => {
            put::<2>(d, at, value);
            put::<2>(d, at + 2, 0);
        }
        Kind::Long | Kind::Rational => put::<4>(d, at, value),
    }
}

// Stores a field: tag, type, a count of 1, and the value.
fn put_field(d: &mut [u8], at: usize, f: Field)
    requires { at + 12 ≤ length d.old }
    ensures { d.new ≡ sets d.old at (field_bytes (field_of f)) }
{
    put::<2>(d, at, f.0);
    put::<2>(d, at + 2, f.1 as u64);
    put::<4>(d, at + 4, 1);
    put_value(d, at + 8, f.1, f.2);
}

// Stores fields one after another.
fn put_fields(d: &mut [u8], at: usize, fields: &[Field])
    requires { at + 12 * length fields.now ≤ length d.old }
    ensures { d.new ≡ sets d.old at (each (λ f. field_bytes (field_of f)) fields.now) }
{
    for (i, f) in fields.iter().enumerate() {
        put_field(d, at + 12 * i, *f);
    }
}

// ---- a sheet's

// Samples of 8 and 16 bits are unsigned integers, those of 32 bits IEEE floating point.
#[tactic(auto, unfolding(format::specs::Sheets::sample_format))]
fn sample_format(bits: u64) -> u64
    ensures { result ≡ sample_format bits }
{
    if bits == 32 { 3 } else { 1 }
}

// Stores the header of a TIFF file whose directory is at byte 8.
fn put_header(d: &mut [u8])
    requires { 8 ≤ length d.old }
    ensures { d.new ≡ sets d.old 0 (tiff_header 8) }
{
    put::<2>(d, 0, BYTE_ORDER);
    put::<2>(d, 2, 42);
    put::<4>(d, 4, 8);
}

// Stores the fraction 1/1.
fn put_one(d: &mut [u8], at: usize)
    requires { at + 8 ≤ length d.old }
    ensures { d.new ≡ sets d.old at (rational_bytes 1 1) }
{
    put::<4>(d, at, 1);
    put::<4>(d, at + 4, 1);
}

// The fields of a sheet, in rising order of their tags.
fn sheet_fields(width: u64, height: u64, bits: u64) -> [Field; 13]
    requires { Fits width height bits }
    ensures { each (λ f. field_bytes (field_of f)) result ≡ each field_bytes (sheet_fields width height bits) }
{
    [
        Field(256, Kind::Long, width), // ImageWidth
        Field(257, Kind::Long, height), // ImageLength
        Field(258, Kind::Short, bits), // BitsPerSample
        Field(259, Kind::Short, 1), // Compression: none
        Field(262, Kind::Short, 1), // PhotometricInterpretation: black is zero
        Field(273, Kind::Long, 186), // StripOffsets
        Field(277, Kind::Short, 1), // SamplesPerPixel
        Field(278, Kind::Long, height), // RowsPerStrip: all of them
        Field(279, Kind::Long, width * height * (bits / 8)), // StripByteCounts
        Field(282, Kind::Rational, 170), // XResolution
        Field(283, Kind::Rational, 178), // YResolution
        Field(296, Kind::Short, 1), // ResolutionUnit: none
        Field(339, Kind::Short, sample_format(bits)), // SampleFormat
    ]
}

// Stores the first 186 bytes of the sheet of a plane.
pub fn put_head(d: &mut [u8], width: u64, height: u64, bits: u64)
    requires { (186 ≤ length d.old) × Fits width height bits }
    ensures { d.new ≡ over (sheet_head width height bits) d.old }
{
    let fields = sheet_fields(width, height, bits);
    put_header(d);
    put::<2>(d, 8, 13);
    put_fields(d, 10, &fields);
    put::<4>(d, 166, 0);
    put_one(d, 170);
    put_one(d, 178);
}
