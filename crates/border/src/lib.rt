// The border call: a program in another language opens a file and reads a plane of it in one call.
#![tactic(auto)]

ghost use Rattle.std.specs.Prelude.{◌≡◌, length};
ghost use Rattle.format.specs.Bytes.{zeros};
ghost use Rattle.format.specs.Given.{said};
ghost use Rattle.format.specs.Trees.{room_in};
ghost use Rattle.format.specs.Summary.{loops_of};
ghost use Rattle.format.specs.Calls.Border.{border_call};
ghost use Rattle.format.specs.Grammar.File.{Joined};
ghost use Rattle.format.specs.Grammar.Table.{Enough};
ghost use Rattle.format.specs.Refused.Order.{FirstAt};
ghost use Rattle.format.specs.Refused.Plane.{PlaneRefusal, plane_order};
ghost use Rattle.format.specs.Refused.Border.{BorderFirst};
ghost use Rattle.format.specs.Sentences.{Refuses, Different, PlaneCopied, ReadsExactly, FrameNamed};
ghost use Rattle.format.specs.declared.Summary.{Summary};

use format::refusal::Refusal;
use open::open;
use plane::plane;

// The number of a call: 0 where it is accepted.
pub fn number_of<T: Copy>(r: Result<T, Refusal>) -> u32
    ensures { result ≡ said r }
{
    match r {
        Ok(_) => 0,
        Err(e) => e.number(),
    }
}

// Opens a file and reads the plane of component c at a point; 0, or the number of the first refusal. It leaves zeros in the table.
pub fn nd2_read_plane(
    file: &[u8],
    table: &mut [u8],
    scene: u64,
    t: u64,
    c: u64,
    z: u64,
    samples: &mut [u8],
) -> u32
    ensures number { result ≡ (border_call file.now table.old scene t c z samples.old).number }
    ensures table { table.new ≡ (border_call file.now table.old scene t c z samples.old).table }
    ensures samples { samples.new ≡ (border_call file.now table.old scene t c z samples.old).samples }
    ensures zeroed { table.new ≡ zeros (length table.old) }
    ensures untouched { Refuses result → samples.new ≡ samples.old }
    ensures first { BorderFirst file.now table.old scene t c z samples.old result }
    ensures then { (u : Summary) → Joined file.now u → Enough file.now (room_in (length table.old))
        → FirstAt (PlaneRefusal file.now u scene t c z samples.old) plane_order result }
    ensures accepted { ReadsExactly file.now (room_in (length table.old)) scene t c z samples.old result }
    ensures copied { result ≡ 0 → (u : Summary) × Joined file.now u
        × PlaneCopied file.now u scene t c z samples.old samples.new }
    ensures different { (u : Summary) → Joined file.now u → Different (loops_of u) }
    ensures named { (u : Summary) → Joined file.now u → Enough file.now (room_in (length table.old))
        → FrameNamed file.now u scene t c z result }
{
    match open(file, table) {
        Ok(u) => number_of(plane(file, u, scene, t, c, z, samples)),
        Err(refused) => refused.number(),
    }
}
