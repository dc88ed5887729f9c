// Readings held against a model.
ghost use Rattle.std.specs.Prelude.{map, ◌≡◌, length};
ghost use Rattle.readings.specs.Readings.{call_readings};
ghost use Rattle.model_types.specs.ModelStruct.{view};
ghost use Rattle.model_readings.specs.ReadingStruct.{view_reading};
ghost use Rattle.model_slices.specs.HandedModels.{handed};
ghost use Rattle.c_readings.specs.HandedReadings.{row_of, readings_fit, readings_state, called_readings};

use model_types::Key;

// A row of readings held against a model: the refusal's number, 0 without one, or MISUSED. The row has as many readings
// as there are low values, with eight coordinates of `points` each and a high value. The refusal's place, 1 or 0 for
// whether a reading contradicts, and the number of the first that does go into the last slice.
#[unsafe(no_mangle)]
pub extern "C" fn hechroung_raw_hold(
    n: u8,
    count: usize,
    radius: u64,
    keys: &[Key],
    coefficients: &[i64],
    points: &[i64],
    lows: &[i64],
    highs: &[i64],
    numbers: &mut [u64],
) -> u8
    ensures { readings_state result numbers.new
        ≡ called_readings
        (readings_fit count (length keys.now) (length coefficients.now)
        (length points.now) (length lows.now) (length highs.now)
        (length numbers.old))
        (call_readings (view (handed n count radius keys.now coefficients.now))
        (map view_reading (row_of points.now lows.now highs.now)))
        numbers.old }
{
    c_readings::hold(
        n,
        count,
        radius,
        keys,
        coefficients,
        points,
        lows,
        highs,
        numbers,
    )
}
