// A row of readings that is handed over in flat slices, held against a model that is handed over, and what is found
// stored into a slice.
#![tactic(auto)]

ghost use Rattle.std.specs.Prelude.{map, [], ◌∷◌, ◌≡◌, ◌≤◌, ◌<◌, length};
ghost use Rattle.readings.specs.Readings.{call_readings};
ghost use Rattle.model_types.specs.ModelStruct.{view};
ghost use Rattle.model_readings.specs.ReadingStruct.{view_reading, finding};
ghost use Rattle.model_slices.specs.HandedModels.{handed, over};
ghost use Rattle.c_readings.specs.HandedReadings.{reading_of, row_of, readings_fit};
ghost use Rattle.c_readings.specs.HandedReadings.{numbers_end};
ghost use Rattle.c_readings.specs.HandedReadings.{finding_numbers, readings_state, stored_finding};
ghost use Rattle.c_readings.specs.HandedReadings.{called_readings};

use model_types::{Finding, Key, Model, Reading};

// The coordinates of a reading's point.
const COORDINATES: usize = model_types::MOST_VARS as usize;

// The numbers of an answer: the refusal's place, whether a reading contradicts, and which.
const NUMBERS: usize = 3;

// Whether the slices hold a model and a row, and there is room for the answer.
pub fn readings_fit(
    count: usize,
    keys: usize,
    coefficients: usize,
    points: usize,
    lows: usize,
    highs: usize,
    numbers: usize,
) -> bool
    ensures { result ≡ readings_fit count keys coefficients points lows highs numbers }
{
    model_slices::borrowed(count, keys, coefficients)
        && lows <= points / COORDINATES
        && lows <= highs
        && NUMBERS <= numbers
}

// Reading i. A row has at most 256, and of a longer one no more are looked at than can be numbered below 1,024.
fn reading_of(points: &[i64], lows: &[i64], highs: &[i64], i: usize) -> Reading
    requires { i < numbers_end }
    ensures { result ≡ reading_of points.now lows.now highs.now i }
{
    let at = i * COORDINATES;
    let x1 = c_calls::coordinate(points, at);
    let x2 = c_calls::coordinate(points, at + 1);
    let x3 = c_calls::coordinate(points, at + 2);
    let x4 = c_calls::coordinate(points, at + 3);
    let x5 = c_calls::coordinate(points, at + 4);
    let x6 = c_calls::coordinate(points, at + 5);
    let x7 = c_calls::coordinate(points, at + 6);
    let x8 = c_calls::coordinate(points, at + 7);
    let low = c_calls::coordinate(lows, i);
    let high = c_calls::coordinate(highs, i);
    let x = [x1, x2, x3, x4, x5, x6, x7, x8];
    Reading {
        x: x,
        low: low,
        high: high,
    }
}

// The row held against m, by the iterations of `model_readings::held_against`, which takes a slice of structs.
fn row_held(m: Model, points: &[i64], lows: &[i64], highs: &[i64]) -> Finding
    ensures { result ≡ finding (call_readings (view m)
        (map view_reading (row_of points.now lows.now highs.now))) }
{
    let n = lows.len();
    let few = n % 257;
    let end = few * 4;
    let mut s = model_readings::begun(m, n);
    let mut k = 0;
    // No range counts this loop: once something is found it leaves out the rest.
    while k < end {
        let i = k % n;
        let r = reading_of(points, lows, highs, i);
        s = model_readings::iteration(m, s, k, n, r);
        k = model_readings::following(s, k, end);
    }
    s
}

// The call on a model and a row that are handed over.
pub fn handed_readings(
    n: u8,
    count: usize,
    radius: u64,
    keys: &[Key],
    coefficients: &[i64],
    points: &[i64],
    lows: &[i64],
    highs: &[i64],
) -> Finding
    ensures { result ≡ finding (call_readings
        (view (handed n count radius keys.now coefficients.now))
        (map view_reading (row_of points.now lows.now highs.now))) }
{
    let m = model_slices::taken(n, count, radius, keys, coefficients);
    row_held(m, points, lows, highs)
}

// Three numbers go into a slice: a refusal's place, whether a reading contradicts, as 1 or 0, and its number.
fn store_three(place: usize, any: u64, number: usize, numbers: &mut [u64])
    requires { finding_numbers ≤ length numbers.old }
    ensures { numbers.new ≡ over (place ∷ any ∷ number ∷ []) numbers.old }
{
    numbers[0] = place as u64;
    numbers[1] = any;
    numbers[2] = number as u64;
}

// What is found goes into a slice; the number of the refusal.
pub fn store_finding(f: Finding, numbers: &mut [u64]) -> u8
    requires { finding_numbers ≤ length numbers.old }
    ensures { readings_state result numbers.new ≡ stored_finding f numbers.old }
{
    let c = f.contradiction;
    let v = f.verdict;
    let place = model_slices::verdict_place(v);
    let any = c.is_some() as u64;
    let number = c.unwrap_or(0);
    store_three(place, any, number, numbers);
    model_slices::verdict_number(v)
}

// A row of readings held against a model: the refusal's number, 0 without one, or MISUSED. The row has as many readings
// as there are low values, with eight coordinates of `points` each and a high value. The refusal's place, 1 or 0 for
// whether a reading contradicts, and the number of the first that does go into the last slice.
pub fn hold(
    n: u8,
    count: usize,
    radius: u64,
    keys: &[Key],
    coefficients: &[i64],
    points: &[i64],
    lows: &[i64],
    highs: &[i64],
    numbers: &mut [u64],
) -> u8
    ensures { readings_state result numbers.new
        ≡ called_readings
        (readings_fit count (length keys.now) (length coefficients.now)
        (length points.now) (length lows.now) (length highs.now)
        (length numbers.old))
        (call_readings (view (handed n count radius keys.now coefficients.now))
        (map view_reading (row_of points.now lows.now highs.now)))
        numbers.old }
{
    if !readings_fit(
        count,
        keys.len(),
        coefficients.len(),
        points.len(),
        lows.len(),
        highs.len(),
        numbers.len(),
    ) {
        return c_calls::MISUSED;
    }
    let f = handed_readings(n, count, radius, keys, coefficients, points, lows, highs);
    store_finding(f, numbers)
}
