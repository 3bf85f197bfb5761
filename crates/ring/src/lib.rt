// Where a search looks: along a direction, at the ring samples of document 01, section 4, and at the nine probes of section 8.
#![tactic(auto)]

ghost use Rattle.std.specs.Prelude.{◌≡◌, ◌<◌, ◌≤◌, ◌*◌, pos, get_or};
ghost use Rattle.ring.specs.Table.{directions};
ghost use Rattle.ring.specs.Sample.{fraction_of, along_of, sample_of};
ghost use Rattle.ring.specs.Probe.{probe_of};

use geometry::Vec2;

pub mod table;

// The nine multiples of the reach, in the order of the probes; pairs, as document 01 has them.
const PROBES: [[f32; 2]; 9] = [
    [0.0, 0.0],
    [1.0, 0.0],
    [1.0, 1.0],
    [0.0, 1.0],
    [-1.0, 1.0],
    [-1.0, 0.0],
    [-1.0, -1.0],
    [0.0, -1.0],
    [1.0, -1.0],
];

// The table of document 01, flat, as the document has it: no value of this type holds other numbers. A caller makes it once and lends it, since a
// constant that is indexed is copied whole at each call.
#[derive(Drop)]
pub struct Directions {
    pub table: [i32; 2432],
    pub ghost documented: { table ≡ directions },
}

// The samples of a step around a point lie on a ring.
#[derive(Clone, Copy, Debug, PartialEq)]
pub struct Ring {
    pub center: Vec2,
    pub reach: f32,
    pub step: usize,
    pub ghost few: { step < 16 },
}

impl Directions {
    #[tactic(auto, unfolding(crate::specs::Table::directions))]
    pub fn all() -> Self
        ensures { result.table ≡ directions }
    {
        Directions {
            table: table::DIRECTIONS,
        }
    }

    // The k-th number of the table, over 2^24.
    #[tactic(auto, using(crate::proofs::Sizes::read_in_float))]
    fn fraction(&self, k: usize) -> f32
        requires { k < 2432 }
        ensures { result ≡ fraction_of (get_or directions k (pos 0)) }
    {
        self.table[k] as f32 / 16777216.0
    }

    // Sample i of a ring.
    pub fn sample(&self, ring: Ring, i: usize) -> Vec2
        requires { i ≤ 10 * ring.step }
        ensures { result ≡ sample_of ring.center ring.reach ring.step i }
    {
        let s = ring.step;
        let k = 2 * (5 * s * s - 4 * s + i);
        let direction = Vec2 {
            x: self.fraction(k),
            y: self.fraction(k + 1),
        };
        along(ring.center, direction, ring.reach, s)
    }
}

// s times the reach from p, along a direction.
pub fn along(p: Vec2, direction: Vec2, reach: f32, s: usize) -> Vec2
    requires { s < 16 }
    ensures { result ≡ along_of p direction reach s }
{
    let steps = s as f32;
    Vec2 {
        x: p.x + direction.x * reach * steps,
        y: p.y + direction.y * reach * steps,
    }
}

// Probe k around p.
#[tactic(auto, unfolding(crate::specs::Probe::probes))]
pub fn probe(p: Vec2, reach: f32, k: usize) -> Vec2
    requires { k < 9 }
    ensures { result ≡ probe_of p reach k }
{
    let [x, y] = PROBES[k];
    Vec2 {
        x: p.x + x * reach,
        y: p.y + y * reach,
    }
}
