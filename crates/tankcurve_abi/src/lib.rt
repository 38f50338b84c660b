// The calls as programs in C, Rust and Python link them: numbers and slices of numbers only. Each is the function of that name of a library, with the
// same clauses: no crate can stand on a static library, so what crates stand on is the libraries.
// Each answer but the version is one number, DETAIL_UNIT × detail + report: report 0 is accepted, and the detail of a report is its place.
#![tactic(auto)]

ghost use Rattle.std.specs.Prelude.{◌≡◌};
ghost use Rattle.meanings.specs.declared.limit.Located.{Located};
ghost use Rattle.meanings.specs.Calls.{evaluate as evaluate_meaning, counts as counts_of, read, read_minutes, read_values, read_evaluation_points};
ghost use Rattle.meanings.specs.Calls.{read_bandwidths, smooth as smooth_meaning, smooth_rows, fill, fill_points, fill_bandwidths};
ghost use Rattle.meanings.specs.Calls.{write_refusal_text, refusal_buffer};
ghost use Rattle.meanings.specs.Codes.{answered, no_detail};
ghost use Rattle.meanings.specs.Estimate.{fields};
ghost use Rattle.meanings.specs.Limits.{full, row_width, preview as small_limits};
ghost use Rattle.meanings.specs.Reports.{given};
ghost use Rattle.meanings.specs.Running.{advance as advance_meaning, record_row};
ghost use Rattle.meanings.specs.Turn.{turn_answer};
ghost use Rattle.exports.specs.Version.{version};
ghost use Rattle.meanings.specs.boxes.Boxes.{minute_axis, temperature_axis, boxes as boxes_meaning, boxes_then, counts_then, sums_then};
ghost use Rattle.meanings.specs.biweight.Biweight.{biweight as biweight_meaning};
ghost use Rattle.meanings.specs.neighbours.Neighbours.{neighbours as neighbours_meaning, bandwidths_then, rows_then};
ghost use Rattle.meanings.specs.ranges.RangeCalls.{range_counts, range_front, read_ranges, minutes_of, lows_of, highs_of, points_of, bandwidths_of};
ghost use Rattle.meanings.specs.ranges.RangeOutput.{write_either, write_either_buffer};
ghost use Rattle.meanings.specs.ranges.Ranges.{smooth_ranges, smooth_ranges_rows};
ghost use Rattle.meanings.specs.doubles.Doubles.{handed};
ghost use Rattle.meanings.specs.limit.Crossing.{first_at_most};
ghost use Rattle.meanings.specs.pair.Comparison.{compare_bounds};
ghost use Rattle.exports.specs.Answers.{sized, stored, bounds as bounds_of, record_length, record_numbers, record_of as record_meaning};
ghost use Rattle.exports.specs.Answers.{count_numbers};
ghost use Rattle.exports.specs.Positions.{position_numbers};
ghost use Rattle.meanings.specs.decisive.Decisive.{decisive};
ghost use Rattle.exports.specs.Lists.{used, filled};
ghost use Rattle.exports.specs.Partings.{tank_detail, parting_length, stored_parting};
ghost use Rattle.exports.specs.KindNumbers.{range_count_numbers};

// Which build this is.
#[unsafe(no_mangle)]
pub extern "C" fn tankcurve_version() -> u32
    ensures { result ≡ version }
{
    exports::version::tankcurve_version()
}

// The question at one mark. row: five numbers, left, right, weight, sum, value.
#[unsafe(no_mangle)]
pub extern "C" fn tankcurve_evaluate(
    minutes: &[u16],
    values: &[u16],
    point: u16,
    bandwidth: u32,
    row: &mut [u64],
) -> u64
    ensures value { result ≡ answered no_detail (sized row_width row.old (evaluate_meaning full minutes.now values.now point bandwidth)) }
    ensures row_after { row.new ≡ stored fields (sized row_width row.old (evaluate_meaning full minutes.now values.now point bandwidth)) row.old }
{
    exports::point::tankcurve_evaluate(minutes, values, point, bandwidth, row)
}

// The same question's run: bounds, two numbers, gets its first position and the one after its last.
#[unsafe(no_mangle)]
pub extern "C" fn tankcurve_window(
    minutes: &[u16],
    values: &[u16],
    point: u16,
    bandwidth: u32,
    bounds: &mut [u64],
) -> u64
    ensures value { result ≡ answered no_detail (sized 2 bounds.old (evaluate_meaning full minutes.now values.now point bandwidth)) }
    ensures bounds_after { bounds.new ≡ stored bounds_of (sized 2 bounds.old (evaluate_meaning full minutes.now values.now point bandwidth)) bounds.old }
{
    exports::point::tankcurve_window(minutes, values, point, bandwidth, bounds)
}

// The question at one mark under the biweight kernel. row: five numbers, left, right, weight, sum, value.
#[unsafe(no_mangle)]
pub extern "C" fn tankcurve_biweight(
    minutes: &[u16],
    values: &[u16],
    point: u16,
    row: &mut [u64],
) -> u64
    ensures value { result ≡ answered no_detail (sized row_width row.old (biweight_meaning full minutes.now values.now point)) }
    ensures row_after { row.new ≡ stored fields (sized row_width row.old (biweight_meaning full minutes.now values.now point)) row.old }
{
    exports::biweight::tankcurve_biweight(minutes, values, point, row)
}

// The single step. running: nine numbers of any origin, left, right, the six sums s00, s10, s20, s01, s11, s21, and the passes.
#[unsafe(no_mangle)]
pub extern "C" fn tankcurve_advance(
    running: &mut [u64],
    minutes: &[u16],
    values: &[u16],
    point: u16,
    bandwidth: u32,
) -> u64
    ensures value { result ≡ answered no_detail (sized record_length running.old (advance_meaning minutes.now values.now (record_meaning running.old) point bandwidth)) }
    ensures running_after { running.new ≡ stored record_numbers (sized record_length running.old (advance_meaning minutes.now values.now (record_meaning running.old) point bandwidth)) running.old }
{
    exports::record::tankcurve_advance(running, minutes, values, point, bandwidth)
}

// The turn. running: nine numbers of any origin, left, right, the six sums s00, s10, s20, s01, s11, s21, and the passes.
#[unsafe(no_mangle)]
pub extern "C" fn tankcurve_turn(
    running: &mut [u64],
    minutes: &[u16],
    values: &[u16],
    point: u16,
    bandwidth: u32,
) -> u64
    ensures value { result ≡ answered no_detail (sized record_length running.old (turn_answer minutes.now values.now (record_meaning running.old) point bandwidth)) }
    ensures running_after { running.new ≡ stored record_numbers (sized record_length running.old (turn_answer minutes.now values.now (record_meaning running.old) point bandwidth)) running.old }
{
    exports::turn::tankcurve_turn(running, minutes, values, point, bandwidth)
}

// The row that a running record gives at a mark. running: nine numbers of any origin; row: five numbers. Every half width is taken.
#[unsafe(no_mangle)]
pub extern "C" fn tankcurve_row(running: &[u64], point: u16, bandwidth: u32, row: &mut [u64]) -> u64
    ensures value { result ≡ answered no_detail (sized record_length running.now (sized row_width row.old (given (record_row (record_meaning running.now) point bandwidth)))) }
    ensures row_after { row.new ≡ stored fields (sized record_length running.now (sized row_width row.old (given (record_row (record_meaning running.now) point bandwidth)))) row.old }
{
    exports::record::tankcurve_row(running, point, bandwidth, row)
}

// The whole sweep: rows receives five numbers a mark, and the detail is the passes.
#[unsafe(no_mangle)]
pub extern "C" fn tankcurve_smooth(
    minutes: &[u16],
    values: &[u16],
    points: &[u16],
    bandwidths: &[u32],
    rows: &mut [u64],
) -> u64
    ensures value { result ≡ answered (λ n. n) (smooth_meaning full minutes.now values.now points.now bandwidths.now rows.old) }
    ensures rows_after { rows.new ≡ smooth_rows full minutes.now values.now points.now bandwidths.now rows.old }
{
    exports::sweep::tankcurve_smooth(minutes, values, points, bandwidths, rows)
}

// The whole sweep over readings known as ranges: rows receives seven numbers a mark, and the detail is the passes.
#[unsafe(no_mangle)]
pub extern "C" fn tankcurve_smooth_ranges(
    minutes: &[u16],
    lows: &[u16],
    highs: &[u16],
    points: &[u16],
    bandwidths: &[u32],
    rows: &mut [u64],
) -> u64
    ensures value { result ≡ answered (λ n. n) (smooth_ranges full minutes.now lows.now highs.now points.now bandwidths.now rows.old) }
    ensures rows_after { rows.new ≡ smooth_ranges_rows full minutes.now lows.now highs.now points.now bandwidths.now rows.old }
{
    exports::ranges::tankcurve_smooth_ranges(minutes, lows, highs, points, bandwidths, rows)
}

// The preview on the panel: the same under its own limits, 256 readings and 64 marks.
#[unsafe(no_mangle)]
pub extern "C" fn tankcurve_preview(
    minutes: &[u16],
    values: &[u16],
    points: &[u16],
    bandwidths: &[u32],
    rows: &mut [u64],
) -> u64
    ensures value { result ≡ answered (λ n. n) (smooth_meaning small_limits minutes.now values.now points.now bandwidths.now rows.old) }
    ensures rows_after { rows.new ≡ smooth_rows small_limits minutes.now values.now points.now bandwidths.now rows.old }
{
    exports::sweep::tankcurve_preview(minutes, values, points, bandwidths, rows)
}

// The mark filler.
#[unsafe(no_mangle)]
pub extern "C" fn tankcurve_fill(
    first: u16,
    spacing: u16,
    preset: u32,
    points: &mut [u16],
    bandwidths: &mut [u32],
) -> u64
    ensures value { result ≡ answered no_detail (fill full first spacing preset points.old bandwidths.old) }
    ensures points_after { points.new ≡ fill_points full first spacing preset points.old bandwidths.old }
    ensures bandwidths_after { bandwidths.new ≡ fill_bandwidths full first spacing preset points.old bandwidths.old }
{
    exports::sweep::tankcurve_fill(first, spacing, preset, points, bandwidths)
}

// The reader of a sheet. counts: two numbers, the kept readings and the marks.
#[unsafe(no_mangle)]
pub extern "C" fn tankcurve_read(
    sheet: &[u8],
    minutes: &mut [u16],
    values: &mut [u16],
    points: &mut [u16],
    bandwidths: &mut [u32],
    counts: &mut [u64],
) -> u64
    ensures value { result ≡ answered no_detail (counts_of (sized 2 counts.old (read full sheet.now minutes.old values.old points.old bandwidths.old))) }
    ensures minutes_after { minutes.new ≡ read_minutes (sized 2 counts.old (read full sheet.now minutes.old values.old points.old bandwidths.old)) minutes.old }
    ensures values_after { values.new ≡ read_values (sized 2 counts.old (read full sheet.now minutes.old values.old points.old bandwidths.old)) values.old }
    ensures points_after { points.new ≡ read_evaluation_points (sized 2 counts.old (read full sheet.now minutes.old values.old points.old bandwidths.old)) points.old }
    ensures bandwidths_after { bandwidths.new ≡ read_bandwidths (sized 2 counts.old (read full sheet.now minutes.old values.old points.old bandwidths.old)) bandwidths.old }
    ensures counts_after { counts.new ≡ stored count_numbers (counts_of (sized 2 counts.old (read full sheet.now minutes.old values.old points.old bandwidths.old))) counts.old }
{
    exports::reader::tankcurve_read(sheet, minutes, values, points, bandwidths, counts)
}

// The reader of sheets of both kinds. counts: three numbers, the kept readings, the marks and the kind.
#[unsafe(no_mangle)]
pub extern "C" fn tankcurve_read_ranges(
    sheet: &[u8],
    minutes: &mut [u16],
    lows: &mut [u16],
    highs: &mut [u16],
    points: &mut [u16],
    bandwidths: &mut [u32],
    counts: &mut [u64],
) -> u64
    ensures value { result ≡ answered no_detail (range_counts (sized 3 counts.old (read_ranges full sheet.now minutes.old lows.old highs.old points.old bandwidths.old))) }
    ensures minutes_after { minutes.new ≡ range_front (sized 3 counts.old (read_ranges full sheet.now minutes.old lows.old highs.old points.old bandwidths.old)) minutes_of minutes.old }
    ensures lows_after { lows.new ≡ range_front (sized 3 counts.old (read_ranges full sheet.now minutes.old lows.old highs.old points.old bandwidths.old)) lows_of lows.old }
    ensures highs_after { highs.new ≡ range_front (sized 3 counts.old (read_ranges full sheet.now minutes.old lows.old highs.old points.old bandwidths.old)) highs_of highs.old }
    ensures points_after { points.new ≡ range_front (sized 3 counts.old (read_ranges full sheet.now minutes.old lows.old highs.old points.old bandwidths.old)) points_of points.old }
    ensures bandwidths_after { bandwidths.new ≡ range_front (sized 3 counts.old (read_ranges full sheet.now minutes.old lows.old highs.old points.old bandwidths.old)) bandwidths_of bandwidths.old }
    ensures counts_after { counts.new ≡ stored range_count_numbers (range_counts (sized 3 counts.old (read_ranges full sheet.now minutes.old lows.old highs.old points.old bandwidths.old))) counts.old }
{
    exports::range_reader::tankcurve_read_ranges(
        sheet, minutes, lows, highs, points, bandwidths, counts,
    )
}

// The curve of a sheet as bytes: out has MAX_OUTPUT bytes, and the detail is how many are written. A refused sheet's report is the answer.
#[unsafe(no_mangle)]
pub extern "C" fn tankcurve_text(sheet: &[u8], out: &mut [u8]) -> u64
    ensures value { result ≡ answered (λ n. n) (write_either sheet.now out.old) }
    ensures out_after { out.new ≡ write_either_buffer sheet.now out.old }
{
    exports::texts::tankcurve_text(sheet, out)
}

// The text of a refusal with this number and place: out has MAX_OUTPUT bytes, and the detail is how many are written.
#[unsafe(no_mangle)]
pub extern "C" fn tankcurve_refusal_text(number: u64, place: u64, out: &mut [u8]) -> u64
    ensures value { result ≡ answered (λ n. n) (write_refusal_text number place out.old) }
    ensures out_after { out.new ≡ refusal_buffer number place out.old }
{
    exports::texts::tankcurve_refusal_text(number, place, out)
}

// The first mark at or below a limit. position, one number, gets the mark's position or what stands for none; the detail is the passes.
#[unsafe(no_mangle)]
pub extern "C" fn tankcurve_first_at_most(
    minutes: &[u16],
    values: &[u16],
    points: &[u16],
    bandwidths: &[u32],
    limit: u16,
    position: &mut [u64],
) -> u64
    ensures value { result ≡ answered (λ (l : Located). l.passes) (sized 1 position.old (first_at_most full minutes.now values.now points.now bandwidths.now limit)) }
    ensures position_after { position.new ≡ stored (λ (l : Located). position_numbers l.position) (sized 1 position.old (first_at_most full minutes.now values.now points.now bandwidths.now limit)) position.old }
{
    exports::limit::tankcurve_first_at_most(minutes, values, points, bandwidths, limit, position)
}

// The reading that decides. position, one number, gets the reading's position or what stands for none; the detail is 0.
#[unsafe(no_mangle)]
pub extern "C" fn tankcurve_decisive(
    minutes: &[u16],
    values: &[u16],
    point: u16,
    bandwidth: u32,
    limit: u16,
    position: &mut [u64],
) -> u64
    ensures value { result ≡ answered no_detail (sized 1 position.old (decisive full minutes.now values.now point bandwidth limit)) }
    ensures position_after { position.new ≡ stored position_numbers (sized 1 position.old (decisive full minutes.now values.now point bandwidth limit)) position.old }
{
    exports::decisive::tankcurve_decisive(minutes, values, point, bandwidth, limit, position)
}

// The comparison of two tanks. The detail is 0 where they are alike, else 1 or 2, the higher one; out, three numbers, then gets the mark's position
// and that tank's left and right there.
#[unsafe(no_mangle)]
pub extern "C" fn tankcurve_compare(
    minutes1: &[u16],
    values1: &[u16],
    minutes2: &[u16],
    values2: &[u16],
    points: &[u16],
    bandwidths: &[u32],
    out: &mut [u64],
) -> u64
    ensures value { result ≡ answered tank_detail (sized parting_length out.old (compare_bounds full minutes1.now values1.now minutes2.now values2.now points.now bandwidths.now)) }
    ensures out_after { out.new ≡ stored_parting (sized parting_length out.old (compare_bounds full minutes1.now values1.now minutes2.now values2.now points.now bandwidths.now)) out.old }
{
    exports::pair::tankcurve_compare(
        minutes1, values1, minutes2, values2, points, bandwidths, out,
    )
}

// Half widths by neighbours: bandwidths receives a half width a mark, by its k nearest readings, and rows five numbers a mark.
#[unsafe(no_mangle)]
pub extern "C" fn tankcurve_neighbours(
    minutes: &[u16],
    values: &[u16],
    points: &[u16],
    k: usize,
    bandwidths: &mut [u32],
    rows: &mut [u64],
) -> u64
    ensures value { result ≡ answered no_detail (neighbours_meaning full minutes.now values.now points.now k bandwidths.old rows.old) }
    ensures bandwidths_after { bandwidths.new ≡ bandwidths_then full minutes.now values.now points.now k bandwidths.old rows.old }
    ensures rows_after { rows.new ≡ rows_then full minutes.now values.now points.now k bandwidths.old rows.old }
{
    exports::neighbours::tankcurve_neighbours(minutes, values, points, k, bandwidths, rows)
}

// A weight or a sum of a row of this weight as doubles: doubles, two of them, gets what is handed over in front; the detail is how many that are, and
// the others stay.
#[unsafe(no_mangle)]
pub extern "C" fn tankcurve_doubles(weight: u64, number: u64, doubles: &mut [f64]) -> u64
    ensures value { result ≡ answered used (sized 2 doubles.old (given (handed weight number))) }
    ensures doubles_after { doubles.new ≡ filled (sized 2 doubles.old (given (handed weight number))) doubles.old }
{
    exports::doubles::tankcurve_doubles(weight, number, doubles)
}

// Minute and temperature together: boxes receives count and sum of each pair of marks, counts and sums a number for each of the 4,225 cells.
#[unsafe(no_mangle)]
pub extern "C" fn tankcurve_boxes(
    minutes: &[u16],
    temperatures: &[u8],
    values: &[u16],
    points: &[u16],
    bandwidths: &[u32],
    temperature_points: &[u8],
    temperature_bandwidths: &[u32],
    boxes: &mut [u64],
    counts: &mut [u32],
    sums: &mut [u32],
) -> u64
    ensures value { result ≡ answered no_detail (boxes_meaning (minute_axis minutes.now points.now bandwidths.now) (temperature_axis temperatures.now temperature_points.now temperature_bandwidths.now) values.now boxes.old counts.old sums.old) }
    ensures boxes_after { boxes.new ≡ boxes_then (minute_axis minutes.now points.now bandwidths.now) (temperature_axis temperatures.now temperature_points.now temperature_bandwidths.now) values.now boxes.old counts.old sums.old }
    ensures counts_after { counts.new ≡ counts_then (minute_axis minutes.now points.now bandwidths.now) (temperature_axis temperatures.now temperature_points.now temperature_bandwidths.now) values.now boxes.old counts.old sums.old }
    ensures sums_after { sums.new ≡ sums_then (minute_axis minutes.now points.now bandwidths.now) (temperature_axis temperatures.now temperature_points.now temperature_bandwidths.now) values.now boxes.old counts.old sums.old }
{
    exports::box_table::tankcurve_boxes(
        minutes,
        temperatures,
        values,
        points,
        bandwidths,
        temperature_points,
        temperature_bandwidths,
        boxes,
        counts,
        sums,
    )
}
