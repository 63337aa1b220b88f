// Clears a 16 by 4 screen, draws two triangles that share an edge, and writes each pixel's colour as a digit.
#![tactic(auto)]

use draw::triangles::draw;
use reader::row;
use rules::{Plane, Refusal, Screen, Triangle, Vertices};
use screen::clear::clear;
use std::io;

// A plane that has the same value everywhere.
fn flat(value: i32) -> Plane {
    Plane {
        c: value,
        a: 0,
        b: 0,
    }
}

// One of the pair: its right angle at (corner, corner), its other corners at (x2, y2) and (y2, x2), in one shade of blue.
fn half_square(corner: i32, x2: i32, y2: i32, blue: i32) -> Triangle {
    let vertices = Vertices {
        x1: corner,
        y1: corner,
        x2,
        y2,
        x3: y2,
        y3: x2,
    };
    Triangle {
        vertices,
        depth: flat(0),
        red: flat(0),
        green: flat(0),
        blue: flat(blue),
    }
}

// The picture. Blue is bits 16 to 20 of its plane, so shade 1 is 65536 and shade 2 is 131072.
fn paint(ram: &mut [u8], s: Screen) -> Result<(), Refusal> {
    clear(ram, s, 0, 65535)?;
    draw(ram, s, half_square(0, 32, 0, 65536))?;
    draw(ram, s, half_square(32, 0, 32, 131072))?;
    Ok(())
}

// A row's colours, which are below ten, as digits, and a new line. A row that was refused has zeros.
fn digits(part: &[u8]) -> [u8; 17] {
    let mut line = [b'0'; 17];
    for (digit, [_, low]) in line.iter_mut().zip(part.as_chunks::<2>().0) {
        *digit = b'0' + low % 10;
    }
    line[16] = b'\n';
    line
}

// Writes the four rows.
fn show(rt: &impl Print, ram: &[u8], s: Screen) -> io::Result<()> {
    for y in 0..4 {
        rt.write_all(&digits(row(ram, s, y)))?;
    }
    Ok(())
}

fn main(rt: HostRuntime) -> io::Result<()> {
    let s = Screen {
        colour: 0,
        depth: 128,
        size: 516,
    };
    let mut ram = [0u8; 256];
    paint(&mut ram, s).map_err(|_| io::Error::from(io::ErrorKind::InvalidInput))?;
    show(&rt, &ram, s)
}
