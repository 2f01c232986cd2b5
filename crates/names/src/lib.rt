//! Sensors by their names: the place of a name on the sheet, the scan of a comma list, and the list of all.
#![tactic(auto)]

ghost use Rattle.std.specs.Prelude.{◌≡◌, [], ◌<◌, min, take, position};
ghost use Rattle.output.specs.Text as texts;
ghost use Rattle.machine.specs.Places.{tabulate};
ghost use Rattle.machine.specs.Sheet.{name_of};
ghost use Rattle.names.specs.Scan as scans;

use machine::{Refusal, Sensor, Sheet};

// Sensors by their places: the first `count` of `places`.
#[derive(Clone, Copy)]
pub struct Listed {
    pub count: usize,
    pub places: [u8; machine::SENSORS],
}

impl Listed {
    // These places.
    pub fn places(&self) -> &[u8]
        ensures { result.now ≡ scans.places_of self.now }
    {
        texts::prefix(&self.places, self.count)
    }
}

// No places: the start of a list.
fn no_places() -> Listed
    ensures { result ≡ scans.listing [] }
{
    Listed {
        count: 0,
        places: [0; machine::SENSORS],
    }
}

// How many sensors of a sheet of that count a State holds.
fn sensors_in(count: u8) -> usize
    ensures { result ≡ min count 32 }
{
    (count as usize).min(machine::SENSORS)
}

// Whether a sensor has that name.
fn has_name(sensor: &Sensor, name: &[u8]) -> bool
    ensures { result ≡ texts.same (name_of sensor.now) name.now }
{
    texts::same(texts::prefix(&sensor.name, sensor.name_len as usize), name)
}

// The place of the sensor with that name.
fn place_named(sensors: &[Sensor], name: &[u8]) -> Option<usize>
    ensures { result ≡ position (λ n. texts.same (name_of n) name.now) sensors.now }
{
    sensors.iter().position(|sensor| has_name(sensor, name))
}

// A list with one place more; declined where it has that place.
fn with_place(list: Listed, j: usize) -> Result<Listed, Refusal>
    requires { scans.Places list × (j < 32) }
    ensures { result ≡ scans.with_place list j }
{
    let n = list.count;
    let mut places = list.places;
    if places[..n].contains(&(j as u8)) {
        return Err(Refusal::SensorTwice);
    }
    places[n] = j as u8;
    Ok(Listed {
        count: n + 1,
        places: places,
    })
}

// The sensors of a comma list. It is left at the first unknown name, which declines it before a name that stands twice: that one is carried to
// the end.
pub fn scan(sheet: Sheet, names: &[u8]) -> Result<Listed, Refusal>
    ensures { result ≡ scans.scanned sheet (scans.places_named sheet names.now) }
{
    let most = sensors_in(sheet.count);
    let mut list: Result<Listed, Refusal> = Ok(no_places());
    'names: for name in names.split(|b| *b == b',') {
        let Some(j) = place_named(&sheet.sensors[..most], name) else {
            list = Err(Refusal::UnknownSensor);
            break 'names;
        };
        list = list.and_then(|listed| with_place(listed, j));
    }
    list
}

// All sensors, in sheet order.
pub fn every_place(count: u8) -> Listed
    ensures { result ≡ scans.listing (tabulate (λ j. j) (min count 32)) }
{
    let most = sensors_in(count);
    let mut places: [u8; machine::SENSORS] = [0; machine::SENSORS];
    for j in 0..most {
        places[j] = j as u8;
    }
    Listed {
        count: most,
        places: places,
    }
}
