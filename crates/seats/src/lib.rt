// The C interface: every function that is exported. Each returns the count of entries, or minus the number of the question that was not passed.
#![tactic(auto)]

ghost use Rattle.std.specs.Prelude.{◌≡◌};
ghost use Rattle.calls.specs.Closest.{point_of_parts, PointsCode, PointCode};
ghost use Rattle.calls.specs.HeightCall.{HeightCode};
ghost use Rattle.towards.specs.Towards.{TowardsCode};
ghost use Rattle.towards.specs.Statement.{SnapSurveyedCode};
ghost use Rattle.locating.specs.Locating.{located_code, LayerCode};
ghost use Rattle.candidates.specs.Candidates.{CandidatesCode, CandidatesMerged};
ghost use Rattle.islands.specs.Islands.{IslandsCode, LabelsLeast};
ghost use Rattle.stitching.specs.Points.{StitchPointsCode};
ghost use Rattle.unstitched.specs.declared.Stitches.TheVariants.{All, ToLayer};
ghost use Rattle.unstitched.specs.NewFile.{RemovalCode, RemovalSound};
ghost use Rattle.seat_run.specs.Run.{RunCode};
ghost use Rattle.seat_run.specs.Survey.{SurveyedCode};
ghost use Rattle.seat_run.specs.Blocked.{BlockedUnplacedCode};
ghost use Rattle.seat_run.specs.NoDecks.{NoDecksCode};
ghost use Rattle.loads.specs.Loads.{LoadsCode, lent_of, SurveyedLoads, UnplacedLoads};
ghost use Rattle.loads.specs.Totals.{TotalledCode};
ghost use Rattle.loads.specs.Portions.{PortionedCode};

use geometry::Vec2;

// The surveyor's statement holds of every run that is not refused, and a seat that names a blocked deck is not searched for. On a hull with no
// decks yet no seat is placed.
#[unsafe(no_mangle)]
pub extern "C" fn seats_run(file: &[u8], blocked: &[u8], seats: &[u8], out: &mut [u8]) -> i64
    ensures replied { RunCode file.now blocked.now seats.now
        out.old out.new result }
    ensures surveyed { SurveyedCode file.now blocked.now seats.now
        out.old out.new }
    ensures unsearched { BlockedUnplacedCode file.now blocked.now seats.now
        out.old out.new }
    ensures no_decks { NoDecksCode file.now blocked.now seats.now
        out.old out.new result }
{
    answers::code(seat_run::run(file, blocked, seats, out))
}

// The run with a load sheet in the table. The run's clauses hold of its records; the sheet's counts add up, and so do portions' sheets.
#[unsafe(no_mangle)]
pub extern "C" fn seats_run_loads(
    file: &[u8],
    blocked: &[u8],
    seats: &[u8],
    out: &mut [u8],
    table: &mut [u8],
    work: &mut [u8],
) -> i64
    ensures replied { LoadsCode file.now blocked.now seats.now
        out.old out.new table.old table.new work.old work.new result }
    ensures surveyed { SurveyedLoads file.now blocked.now
        (lent_of seats.now out.old table.old work.old) out.new }
    ensures unsearched { UnplacedLoads file.now blocked.now
        (lent_of seats.now out.old table.old work.old) out.new }
    ensures totalled { TotalledCode file.now blocked.now
        (lent_of seats.now out.old table.old work.old) out.new table.new }
    ensures portioned { PortionedCode file.now blocked.now
        (lent_of seats.now out.old table.old work.old) out.new table.new }
{
    answers::code(loads::run_loads(file, blocked, seats, out, table, work))
}

#[unsafe(no_mangle)]
pub extern "C" fn seats_closest_points(
    file: &[u8],
    x: f32,
    y: f32,
    deck: u32,
    blocked: &[u8],
    out: &mut [u8],
) -> i64
    ensures { PointsCode file.now x y deck blocked.now out.old out.new result }
{
    answers::code(calls::get_closest_points_on_layers(file, Vec2 { x, y }, deck, blocked, out))
}

#[unsafe(no_mangle)]
pub extern "C" fn seats_closest_point(
    file: &[u8],
    x: f32,
    y: f32,
    deck: u32,
    blocked: &[u8],
    out: &mut [u8],
) -> i64
    ensures { PointCode file.now x y deck blocked.now out.old out.new result }
{
    answers::code(calls::get_closest_point_on_layers(file, Vec2 { x, y }, deck, blocked, out))
}

// The surveyor's statement of such a place holds of every call that is not refused.
#[unsafe(no_mangle)]
pub extern "C" fn seats_closest_point_towards(
    file: &[u8],
    x: f32,
    y: f32,
    towards_x: f32,
    towards_y: f32,
    deck: u32,
    out: &mut [u8],
) -> i64
    ensures replied { TowardsCode file.now (point_of_parts x y) (point_of_parts towards_x towards_y) deck
        out.old out.new result }
    ensures surveyed { SnapSurveyedCode file.now (point_of_parts x y) (point_of_parts towards_x towards_y) deck
        out.old out.new }
{
    let towards = Vec2 {
        x: towards_x,
        y: towards_y,
    };
    answers::code(towards::get_closest_point_towards(file, Vec2 { x, y }, towards, deck, out))
}

#[unsafe(no_mangle)]
pub extern "C" fn seats_height(file: &[u8], x: f32, y: f32, polygon: u32, out: &mut [u8]) -> i64
    ensures { HeightCode file.now x y polygon out.old out.new result }
{
    answers::code(calls::height(file, Vec2 { x, y }, polygon, out))
}

// The packed polygon, all ones where there is none, or minus the question's number.
#[unsafe(no_mangle)]
pub extern "C" fn seats_point_location(file: &[u8], x: f32, y: f32, deck: u32) -> i64
    ensures { result ≡ located_code file.now x y deck }
{
    locating::code(locating::get_point_location(file, Vec2 { x, y }, deck))
}

#[unsafe(no_mangle)]
pub extern "C" fn seats_point_layer(file: &[u8], x: f32, y: f32, deck: u32, out: &mut [u8]) -> i64
    ensures { LayerCode file.now x y deck out.old out.new result }
{
    answers::code(locating::get_point_layer(file, Vec2 { x, y }, deck, out))
}

#[unsafe(no_mangle)]
pub extern "C" fn seats_candidate_polygons(
    file: &[u8],
    x: f32,
    y: f32,
    deck: u32,
    polygon: u32,
    blocked: &[u8],
    out: &mut [u8],
    work: &mut [u8],
) -> i64
    ensures replied { CandidatesCode file.now x y deck polygon blocked.now
        out.old out.new work.old work.new result }
    ensures merged { CandidatesMerged file.now (point_of_parts x y) deck blocked.now }
{
    let p = Vec2 { x, y };
    answers::code(candidates::candidate_polygons(file, p, deck, polygon, blocked, out, work))
}

#[unsafe(no_mangle)]
pub extern "C" fn seats_islands(file: &[u8], deck: u32, out: &mut [u8], work: &mut [u8]) -> i64
    ensures replied { IslandsCode file.now deck out.old out.new
        work.old work.new result }
    ensures labelled { LabelsLeast file.now deck }
{
    answers::code(islands::bake_islands_detection(file, deck, out, work))
}

#[unsafe(no_mangle)]
pub extern "C" fn seats_stitch_points(file: &[u8], out: &mut [u8]) -> i64
    ensures { StitchPointsCode file.now out.old out.new result }
{
    answers::code(stitching::find_stitch_points(file, out))
}

// The bytes of the new file, or minus the question's number.
#[unsafe(no_mangle)]
pub extern "C" fn seats_remove_stitches(file: &[u8], out: &mut [u8]) -> i64
    ensures replied { RemovalCode All file.now out.old out.new result }
    ensures sound { RemovalSound All file.now }
{
    answers::code(removal::remove_stitches(file, out))
}

#[unsafe(no_mangle)]
pub extern "C" fn seats_remove_stitches_to_layer(file: &[u8], layer: u8, out: &mut [u8]) -> i64
    ensures replied { RemovalCode (ToLayer layer) file.now out.old out.new result }
    ensures sound { RemovalSound (ToLayer layer) file.now }
{
    answers::code(removal::remove_stitches_to_layer(file, layer, out))
}
