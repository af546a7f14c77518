// SPDX-License-Identifier: MIT OR Apache-2.0
// What `forecast` prints (02, W-207), in pieces: the input's nine lines begin a forecast, and each `print_on` gives the bytes of a further
// piece, so that a year needs no large memory. Total; the program around it only reads and writes.
#![tactic(auto)]

ghost use Rattle.std.specs.Prelude.{◌≡◌, ◌≤◌, length};
ghost use Rattle.lines.specs.Put.{over as put_over};
ghost use Rattle.forecaster.specs.Printed.{settings_with};
ghost use Rattle.flight.specs.Flight.{flown_on};
ghost use Rattle.forecaster.specs.Pieces.{is_over, longest_piece, begun_with, begun, blank_room, flown_piece, unread_piece, piece_in};

use flight::{Flight, Phase};
use plan::Settings;
use refusals::Refusal;
use triple::Triple;

mod rows;

// Numbers of the room that a piece is flown with: 64 samples.
const ROOM: usize = 640;

// The bytes of the longest piece: 64 lines of 191, and a refusal's.
pub const LONGEST: usize = 12245;

// A forecast on its way: of an input that can't be read, which is still to be told; of one whose flight goes on; or all of it is printed, and
// there is the flight as it ended, unless the input couldn't be read.
#[derive(Clone, Copy)]
pub enum Forecast {
    Unread,
    Flying(Flight),
    Over(Option<Flight>),
}

impl Forecast {
    // Whether all of it is printed.
    pub fn is_over(&self) -> bool
        ensures { result ≡ is_over self.now }
    {
        matches!(self, Forecast::Over(_))
    }
}

// What a piece printed: so many bytes of the lent ones (no heap), and the forecast to go on with.
#[derive(Clone, Copy)]
pub struct Printed {
    pub forecast: Forecast,
    pub count: usize,
}

// The default settings, but for the step and with samples.
fn settings_with(h: f64) -> Settings
    ensures { result ≡ settings_with h }
{
    Settings {
        h,
        samples: 1,
        ..gauss_jackson::default_settings()
    }
}

fn begin_with(numbers: [u64; 9]) -> Forecast
    ensures { result ≡ begun_with numbers }
{
    let r = Triple {
        x: bits::float_of(numbers[3]),
        y: bits::float_of(numbers[4]),
        z: bits::float_of(numbers[5]),
    };
    let v = Triple {
        x: bits::float_of(numbers[6]),
        y: bits::float_of(numbers[7]),
        z: bits::float_of(numbers[8]),
    };
    let t0 = bits::float_of(numbers[0]);
    let tf = bits::float_of(numbers[1]);
    let settings = settings_with(bits::float_of(numbers[2]));
    Forecast::Flying(flight::take_off(settings, t0, tf, r, v))
}

// The forecast of an input; one that can't be read prints 19.
pub fn begin(text: &[u8]) -> Forecast
    ensures { result ≡ begun text.now }
{
    match lines::read_nine(text) {
        Some(numbers) => begin_with(numbers),
        None => Forecast::Unread,
    }
}

// All that is printed of an input that can't be read.
fn print_unread(out: &mut [u8]) -> Printed
    requires { longest_piece ≤ length out.old }
    ensures { (result.forecast ≡ unread_piece.forecast) × (result.count ≡ length unread_piece.bytes) × (out.new ≡ put_over 0 unread_piece.bytes out.old) }
{
    let number = u64::from(u8::from(Refusal::InputLine));
    let count = lines::put_refusal(number, 0, out);
    Printed {
        forecast: Forecast::Over(None),
        count,
    }
}

// A piece of a flight.
fn print_flown(before: Flight, out: &mut [u8]) -> Printed
    requires { longest_piece ≤ length out.old }
    ensures { (result.forecast ≡ (flown_piece before (flown_on before blank_room)).forecast)
        × (result.count ≡ length (flown_piece before (flown_on before blank_room)).bytes)
        × (out.new ≡ put_over 0 (flown_piece before (flown_on before blank_room)).bytes out.old) }
{
    let from = before.next;
    let mut room = [0.0f64; ROOM];
    let after = flight::fly_on(before, &mut room);
    let told = after.next - from;
    let count = rows::put_told(from, told, after.phase, &room, out);
    let forecast = match after.phase {
        Phase::Asks(_question) => Forecast::Flying(after),
        Phase::Over(_ending) => Forecast::Over(Some(after)),
    };
    Printed { forecast, count }
}

// The next piece, from the first byte of `out` on. Nothing where all is printed, or where `out` has not LONGEST bytes.
pub fn print_on(forecast: Forecast, out: &mut [u8]) -> Printed
    ensures { (result.forecast ≡ (piece_in forecast (length out.old)).forecast)
        × (result.count ≡ length (piece_in forecast (length out.old)).bytes)
        × (out.new ≡ put_over 0 (piece_in forecast (length out.old)).bytes out.old) }
{
    if out.len() < LONGEST {
        return Printed { forecast, count: 0 };
    }
    match forecast {
        Forecast::Unread => print_unread(out),
        Forecast::Flying(flight) => print_flown(flight, out),
        Forecast::Over(_) => Printed { forecast, count: 0 },
    }
}
