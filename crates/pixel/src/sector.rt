// The sector of a gradient, and the step to the neighbour that it chooses (01.Gradient.7 to 01.Gradient.17, 02.2.3).
ghost use Rattle.std.specs.Prelude.{◌≡◌};
ghost use Rattle.rules.specs.Sector.{sector_of, offset, neighbours};
ghost use Rattle.pixel.specs.Sizes.{AbsoluteOf};

// The absolute value of a component: the one place where its sign is taken off. -32,768 has one too.
fn absolute(g: i16) -> u32
    ensures { AbsoluteOf g result }
{
    g.unsigned_abs() as u32
}

// The sector of a gradient as its number, which document 01 asks for; by squares (01.Gradient.7 to 01.Gradient.11): (a + b)² < 2a² is 2ab + b² < a², which 32 bits hold.
pub fn sector(gx: i16, gy: i16) -> u8
    ensures { result ≡ sector_of gx gy }
{
    let a = absolute(gx);
    let b = absolute(gy);
    if a + b == 0 {
        return 0;
    }
    let twice = 2 * (a * b);
    if twice + b * b < a * a {
        return 0;
    }
    if twice + a * a < b * b {
        return 90;
    }
    if (gx < 0) == (gy < 0) { 45 } else { 135 }
}

// A step to a neighbour: columns to the right, rows downwards.
#[derive(Clone, Copy)]
pub struct Offset {
    pub dx: i8,
    pub dy: i8,
}

// The first neighbour of a sector, as the table has it; the second is its opposite (01.Gradient.13 to 01.Gradient.17, 02.2.3).
#[tactic(auto, unfolding(rules::specs::Sector::neighbours))]
pub fn first_neighbour(sector: u8) -> Offset
    ensures { offset result.dx result.dy ≡ (neighbours sector).0 }
{
    match sector {
        0 => Offset { dx: -1, dy: 0 },
        45 => Offset { dx: -1, dy: -1 },
        90 => Offset { dx: 0, dy: -1 },
        _ => Offset { dx: 1, dy: -1 },
    }
}
