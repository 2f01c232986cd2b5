//! The rules that the parts of a sheet keep (document 01, "Sheet"). Opening a sheet asks them of what was read, and the check of a state of
//! what it was handed. Each is a straight pass with `&` and `|`, since a state is checked in every call.
#![tactic(auto)]

ghost use Rattle.std.specs.Prelude.{◌≡◌, cond, ◌&&◌, ◌+◌, ◌<◌, ◌≤◌, eqb, leb, length, get_or, count_by};
ghost use Rattle.std.specs.List.{list_all};
ghost use Rattle.machine.specs.Places.{all_below};
ghost use Rattle.machine.specs.Sheet as sheets;
ghost use Rattle.machine.specs.Range.{client_ok};
ghost use Rattle.rules.specs.Texts.{in_charset};
ghost use Rattle.rules.specs.Apart.{alike, choices_apart, names_apart};
ghost use Rattle.rules.specs.Keys as key;
ghost use Rattle.rules.specs.Found.{sensors_found};

use machine::{Choice, Client, Sensor, Sheet};
use value::Limits;

// The bytes that a text may have: name bytes, 0x21–0x7E, 0x20–0x7E, or those of a log entry, which may also be 9, 10 and 13.
#[derive(Clone, Copy)]
pub enum Charset {
    Name,
    Graphic,
    Printable,
    Entry,
}

// Whether a text may have a byte.
pub fn in_charset(charset: Charset, b: u8) -> bool
    ensures { result ≡ in_charset charset b }
{
    match charset {
        Charset::Name => texts::is_name_byte(b),
        Charset::Graphic => (0x21 <= b) & (b <= 0x7E),
        Charset::Printable => (0x20 <= b) & (b <= 0x7E),
        Charset::Entry => ((0x20 <= b) & (b <= 0x7E)) | ((b == 9) | ((b == 10) | (b == 13))),
    }
}

// Whether all of some bytes are a text of such bytes, `least` to `most` of them.
pub fn text_fits(bytes: &[u8], least: usize, most: usize, charset: Charset) -> bool
    ensures { result ≡ sheets.text_fits least most (in_charset charset) bytes.now }
{
    let mut ok = true;
    for b in bytes {
        ok = ok & in_charset(charset, *b);
    }
    (least <= bytes.len()) & ((bytes.len() <= most) & ok)
}

// Whether the first `len` bytes of an array are a text of such bytes, `least` to `most` of them, and the others zero. A place is compared as a
// byte, so that the compiler can take many at a time.
fn text_ok(bytes: &[u8], len: u8, least: u8, most: u8, charset: Charset) -> bool
    requires { length bytes.now ≤ 64 }
    ensures { result ≡ sheets.text_ok least most (in_charset charset) len bytes.now }
{
    let mut ok = true;
    for (i, b) in bytes.iter().enumerate() {
        let fits = in_charset(charset, *b);
        let inside = (i as u8) < len;
        ok = ok & ((inside & fits) | (!inside & (*b == 0)));
    }
    (least <= len) & ((len <= most) & ok)
}

// A bound for what is there; else 0.
fn bound(there: bool, n: u8) -> u8
    ensures { result ≡ cond there n 0 }
{
    if there { n } else { 0 }
}

// A client's address, or none.
pub fn client_ok(client: Client) -> bool
    ensures { result ≡ client_ok client }
{
    let there = client.connected;
    text_ok(
        &client.address,
        client.address_len,
        bound(there, 1),
        bound(there, machine::LONGEST_ADDRESS),
        Charset::Graphic,
    )
}

// A limit of an integer or, of any other type, of a float.
fn limit_ok(kind: u8, n: u64) -> bool
    ensures { result ≡ sheets.limit_ok kind n }
{
    match kind {
        1 => n < value::INTEGERS,
        2 => n <= value::MOST_FLOAT,
        3 => n <= value::MOST_FLOAT,
        4 => n <= value::MOST_FLOAT,
        5 => n <= value::MOST_FLOAT,
        _ => n <= value::MOST_FLOAT,
    }
}

// Two limits of a type, the lower one first.
fn ordered(kind: u8, low: u64, high: u64) -> bool
    ensures { result ≡ (sheets.limit_ok kind low && (sheets.limit_ok kind high && leb low high)) }
{
    limit_ok(kind, low) & (limit_ok(kind, high) & (low <= high))
}

fn limits_two(kind: u8, l: Limits) -> bool
    ensures { result ≡ sheets.limits_two kind l }
{
    let nominal = ordered(kind, l.nominal_min, l.nominal_max);
    (l.count == 2) & (nominal & ((l.warn_min == 0) & (l.warn_max == 0)))
}

fn limits_four(kind: u8, l: Limits) -> bool
    ensures { result ≡ sheets.limits_four kind l }
{
    let lower = ordered(kind, l.warn_min, l.nominal_min);
    let upper = ordered(kind, l.nominal_max, l.warn_max);
    (l.count == 4) & (lower & (upper & (l.nominal_min <= l.nominal_max)))
}

// The limits of a type: none, or for types 1 and 2 two or four.
fn limits_ok(kind: u8, l: Limits) -> bool
    ensures { result ≡ sheets.limits_ok kind l }
{
    let none = l == value::NO_LIMITS;
    let two = limits_two(kind, l);
    let four = limits_four(kind, l);
    none | (value::is_measured(kind) & (two | four))
}

// A place that holds no option. Its text is compared as one number, since that takes fewer steps than byte by byte.
fn choice_none(o: Choice) -> bool
    ensures { result ≡ sheets.choice_none o }
{
    let text = u128::from_le_bytes(o.text);
    (o.len == 0) & (text == 0)
}

fn choices_none(options: [Choice; machine::OPTIONS]) -> bool
    ensures { result ≡ all_below (λ k. sheets.choice_none (get_or options k sheets.no_choice)) 8 }
{
    let mut ok = true;
    for k in 0..machine::OPTIONS {
        let o = options[k];
        ok = ok & choice_none(o);
    }
    ok
}

// Place k of `count` options: an option, or nothing. The same pass with other bounds.
fn choice_ok(count: u8, k: usize, o: Choice) -> bool
    ensures { result ≡ sheets.choice_ok count k o }
{
    let there = k < usize::from(count);
    let text = o.text;
    text_ok(
        &text,
        o.len,
        bound(there, 1),
        bound(there, machine::LONGEST_OPTION),
        Charset::Name,
    )
}

fn choices_ok(count: u8, options: [Choice; machine::OPTIONS]) -> bool
    ensures { result ≡ all_below (λ k. sheets.choice_ok count k (get_or options k sheets.no_choice)) 8 }
{
    let mut ok = true;
    for k in 0..machine::OPTIONS {
        let o = options[k];
        ok = ok & choice_ok(count, k, o);
    }
    ok
}

// Keys are below.
const KEYS: u64 = 1 << 32;

// Four bytes as one number.
fn quarter(text: &[u8], at: usize) -> u64
    requires { at + 4 ≤ length text.now }
    ensures { (result ≡ key.quarter_at text.now at) × (result < 4294967296) }
{
    u64::from(u32::from_le_bytes([text[at], text[at + 1], text[at + 2], text[at + 3]]))
}

// A key of sixteen bytes: a number by which texts are told apart. Texts of different keys are different.
fn half_key(text: &[u8], at: usize) -> u64
    requires { at + 16 ≤ length text.now }
    ensures { (result ≡ key.half_key text.now at) × (result < 68719476736) }
{
    let a = quarter(text, at);
    let b = quarter(text, at + 4);
    let c = quarter(text, at + 8);
    let d = quarter(text, at + 12);
    a + 3 * b + (5 * c + 7 * d)
}

fn choice_key(text: &[u8; machine::OPTION]) -> u32
    ensures { result ≡ key.choice_key text.now }
{
    (half_key(text, 0) % KEYS) as u32
}

fn name_key(name: &[u8; machine::NAME]) -> u32
    ensures { result ≡ key.name_key name.now }
{
    let first = half_key(name, 0);
    let second = half_key(name, 16);
    ((first + 11 * second) % KEYS) as u32
}

// How often a key stands among some.
fn times(keys: &[u32], own: u32) -> u32
    requires { length keys.now ≤ 32 }
    ensures { result ≡ count_by (λ k. eqb k own) keys.now }
{
    let mut found: u32 = 0;
    for key in keys {
        found += u32::from(*key == own);
    }
    found
}

// Whether each of some keys stands there once.
fn keys_apart(keys: &[u32]) -> bool
    requires { length keys.now ≤ 32 }
    ensures { result ≡ list_all (λ own. eqb (count_by (λ k. eqb k own) keys.now) 1) keys.now }
{
    let mut ok = true;
    for own in keys {
        ok = ok & (times(keys, *own) == 1);
    }
    ok
}

// The keys of the options; 0 behind them.
fn choice_keys(options: [Choice; machine::OPTIONS]) -> [u32; machine::SENSORS]
    ensures { result ≡ key.choice_keys options }
{
    let mut keys: [u32; machine::SENSORS] = [0; machine::SENSORS];
    for k in 0..machine::OPTIONS {
        let o = options[k];
        let text = o.text;
        keys[k] = choice_key(&text);
    }
    keys
}

// Whether two texts have the same length, and their arrays the same bytes.
fn alike_texts(a_len: u8, a: &[u8], b_len: u8, b: &[u8]) -> bool
    ensures { result ≡ alike a_len a.now b_len b.now }
{
    (a_len == b_len) & (a == b)
}

// Every option beside every option.
const OPTION_PAIRS: usize = machine::OPTIONS * machine::OPTIONS;

// Options compared with each other, whole arrays.
fn choices_compared(count: u8, options: [Choice; machine::OPTIONS]) -> bool
    ensures { result ≡ choices_apart count options }
{
    let n = usize::from(count);
    let mut ok = true;
    for q in 0..OPTION_PAIRS {
        let i = q % machine::OPTIONS;
        let j = q / machine::OPTIONS;
        let one = options[i];
        let other = options[j];
        let a = one.text;
        let b = other.text;
        let like = alike_texts(one.len, &a, other.len, &b);
        ok = ok & ((n <= j) | ((j <= i) | !like));
    }
    ok
}

// Whether no two options are alike: by their keys, and compared whole where two keys are the same.
fn choices_apart(count: u8, options: [Choice; machine::OPTIONS]) -> bool
    requires { count ≤ 8 }
    ensures { result ≡ choices_apart count options }
{
    let keys = choice_keys(options);
    if keys_apart(&keys[..usize::from(count)]) {
        return true;
    }
    choices_compared(count, options)
}

fn options_ok(sensor: Sensor) -> bool
    ensures { result ≡ sheets.options_ok sensor }
{
    let count = sensor.option_count;
    let options = sensor.options;
    let discrete = value::is_discrete(sensor.kind);
    if count == 0 {
        return !discrete & choices_none(options);
    }
    if machine::MOST_OPTIONS < count {
        return false;
    }
    let each = choices_ok(count, options);
    let apart = choices_apart(count, options);
    discrete & (each & apart)
}

// The limits of a sensor that is there, or of none.
fn limits_at(there: bool, kind: u8, l: Limits) -> bool
    ensures { result ≡ cond there (sheets.limits_ok kind l) (sheets.limits_none l) }
{
    if there {
        return limits_ok(kind, l);
    }
    l == value::NO_LIMITS
}

// The place of a sensor that is on the sheet, or of none: the same passes with other bounds.
fn sensor_ok_at(there: bool, sensor: Sensor) -> bool
    ensures { result ≡ cond there (sheets.sensor_ok sensor) (sheets.sensor_none sensor) }
{
    let name = sensor.name;
    let description = sensor.description;
    let units = sensor.units;
    let kind = sensor.kind;
    let one = bound(there, 1);
    let named = text_ok(
        &name,
        sensor.name_len,
        one,
        bound(there, machine::LONGEST_NAME),
        Charset::Name,
    );
    let described = text_ok(
        &description,
        sensor.description_len,
        0,
        bound(there, machine::LONGEST_DESCRIPTION),
        Charset::Printable,
    );
    let measured = text_ok(
        &units,
        sensor.units_len,
        0,
        bound(there, machine::LONGEST_UNITS),
        Charset::Printable,
    );
    let typed = (one <= kind) & (kind <= bound(there, 5));
    let limits = limits_at(there, kind, sensor.limits);
    let options = options_ok(sensor);
    named & (described & (measured & (typed & (limits & options))))
}

// Every sensor beside every sensor.
const SENSOR_PAIRS: usize = machine::SENSORS * machine::SENSORS;

// Names compared with each other, whole arrays.
fn names_compared(sheet: Sheet) -> bool
    ensures { result ≡ names_apart sheet }
{
    let count = usize::from(sheet.count);
    let mut ok = true;
    for q in 0..SENSOR_PAIRS {
        let i = q % machine::SENSORS;
        let j = q / machine::SENSORS;
        let one = sheet.sensors[i];
        let other = sheet.sensors[j];
        let a = one.name;
        let b = other.name;
        let like = alike_texts(one.name_len, &a, other.name_len, &b);
        ok = ok & ((count <= j) | ((j <= i) | !like));
    }
    ok
}

// What one pass over the sensors of a sheet finds: whether they keep their rules, the type of each, and how many options it has.
#[derive(Clone, Copy)]
pub struct Sensors {
    pub ok: bool,
    pub kinds: [u8; machine::SENSORS],
    pub options: [u8; machine::SENSORS],
}

// The sensors of a sheet: their number, each of them, and that their names are distinct, by their keys, and compared whole where two keys
// are the same. Each is taken out, and handed on by value: were one lent where it stands, the compiler would copy the whole sheet for it.
pub fn sensors_found(sheet: Sheet) -> Sensors
    ensures { result ≡ sensors_found sheet }
{
    let count = usize::from(sheet.count);
    let mut ok = true;
    let mut kinds: [u8; machine::SENSORS] = [0; machine::SENSORS];
    let mut options: [u8; machine::SENSORS] = [0; machine::SENSORS];
    let mut keys: [u32; machine::SENSORS] = [0; machine::SENSORS];
    for j in 0..machine::SENSORS {
        let sensor = sheet.sensors[j];
        let name = sensor.name;
        ok = ok & sensor_ok_at(j < count, sensor);
        kinds[j] = sensor.kind;
        options[j] = sensor.option_count;
        keys[j] = name_key(&name);
    }
    let held = count.min(machine::SENSORS);
    if !keys_apart(&keys[..held]) {
        ok = ok & names_compared(sheet);
    }
    Sensors {
        ok: (count <= machine::SENSORS) & ok,
        kinds: kinds,
        options: options,
    }
}

// The API text and the build text. As in `titles_none`, the texts are tested right here: a function of both that is called twice would make
// the compiler keep a copy of the sheet.
pub fn titles_ok(sheet: Sheet) -> bool
    ensures { result ≡ sheets.titles_ok sheet }
{
    let api = sheet.api;
    let build = sheet.build;
    let first = text_ok(
        &api,
        sheet.api_len,
        1,
        machine::LONGEST_TITLE,
        Charset::Graphic,
    );
    let second = text_ok(
        &build,
        sheet.build_len,
        1,
        machine::LONGEST_TITLE,
        Charset::Graphic,
    );
    first & second
}

// Both empty, as the blank state has them.
pub fn titles_none(sheet: Sheet) -> bool
    ensures { result ≡ sheets.titles_none sheet }
{
    let api = sheet.api;
    let build = sheet.build;
    let first = text_ok(&api, sheet.api_len, 0, 0, Charset::Graphic);
    let second = text_ok(&build, sheet.build_len, 0, 0, Charset::Graphic);
    first & second
}
