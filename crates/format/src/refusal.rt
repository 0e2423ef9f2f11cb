// Document 01, Why a file is turned away: its refusals and those of the change requests, by their trade words.
ghost use Rattle.std.specs.Prelude.{◌≡◌};
ghost use Rattle.format.specs.Given.{number};

// Why a file or a call is refused, in the order of the numbers.
#[derive(Clone, Copy, Debug, PartialEq, Eq)]
pub enum Refusal {
    Foreign,
    Legacy,
    Tail,
    Chunk,
    Map,
    Cut,
    Kind,
    Packed,
    Deep,
    Level,
    Missing,
    Compression,
    Bits,
    FrameShape,
    LoopKind,
    LoopCount,
    AxisTwice,
    Table,
    ChannelRow,
    Summary,
    Index,
    Ceiling,
    NoFrame,
    FrameShort,
    Buffer,
    SheetLong,
    SheetLayout,
    SizeRange,
    ChunkName,
}

impl Refusal {
    // The number that document 01 gives a refusal.
    pub fn number(self) -> u32
        ensures { result ≡ number self }
    {
        match self {
            Refusal::Foreign => 1,
            Refusal::Legacy => 2,
            Refusal::Tail => 3,
            Refusal::Chunk => 4,
            Refusal::Map => 5,
            Refusal::Cut => 6,
            Refusal::Kind => 7,
            Refusal::Packed => 8,
            Refusal::Deep => 9,
            Refusal::Level => 10,
            Refusal::Missing => 11,
            Refusal::Compression => 12,
            Refusal::Bits => 13,
            Refusal::FrameShape => 14,
            Refusal::LoopKind => 15,
            Refusal::LoopCount => 16,
            Refusal::AxisTwice => 17,
            Refusal::Table => 18,
            Refusal::ChannelRow => 19,
            Refusal::Summary => 20,
            Refusal::Index => 21,
            Refusal::Ceiling => 22,
            Refusal::NoFrame => 23,
            Refusal::FrameShort => 24,
            Refusal::Buffer => 25,
            Refusal::SheetLong => 26,
            Refusal::SheetLayout => 27,
            Refusal::SizeRange => 28,
            Refusal::ChunkName => 29,
        }
    }
}
