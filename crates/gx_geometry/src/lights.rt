//! Lighting: the colour of a normal (GBATEK, "DS 3D Polygon Light Parameters").

ghost use Rattle.std.specs.Prelude.{◌≡◌, ◌<◌, ◌≤◌, ◌*◌, ◌/◌, ◌^◌, [], ◌∷◌, ◌-ℤ◌, ◌≤ℤ◌, pos, negsuc};
ghost use Rattle.gx_geometry.specs.Lights.{turned, dot, facing, half, shine, light_levels, channel, share, added, lit_channel, lit_colour};

use crate::exact::{product, sum};
use crate::numbers::{Light, Material, Numbers, ten};
use line_lanes::{Matrix, transform4};

/// How strongly a light shines on a normal.
#[derive(Clone, Copy)]
pub struct Levels {
    /// The diffuse level, 0 to 511.
    pub diffuse: u16,
    /// The specular level, 0 to 510.
    pub specular: u16,
}

/// A normal or a light vector of three signed numbers of ten bits, turned by the vector matrix. The last number means nothing.
#[tactic(auto, using(gx_matrix::proofs::Sums::casts), unfolding(crate::specs::Lights::turned))]
pub fn turned(word: u32, m: &Matrix) -> [i32; 4]
    ensures { result ≡ turned word m.now }
{
    transform4(
        [
            ten(0, word) as i32,
            ten(10, word) as i32,
            ten(20, word) as i32,
            0,
        ],
        m,
    )
}

#[tactic(auto, using(gx_matrix::proofs::Sums::casts))]
fn dot(x: i32, y: i32, z: i32, n: &[i32; 4]) -> i128
    ensures { result ≡ dot x y z n.now }
{
    sum(product(x, n[0]), product(y, n[1]), product(z, n[2]))
}

#[tactic(auto, using(crate::proofs::Facing::facing_up, crate::proofs::Facing::facing_down))]
fn facing(sum: i128) -> u16
    ensures value { result ≡ facing sum }
    ensures within { result ≤ 511 }
{
    if sum >= 0 {
        0
    } else {
        (sum.unsigned_abs() / 512).min(511) as u16
    }
}

fn half(z: i32) -> i32
    ensures { result ≡ half z }
{
    z.div_euclid(2)
}

fn less_sight(z: i32) -> i64
    ensures value { result ≡ z -ℤ pos 512 }
    ensures low { negsuc 0xBFFF_FFFF ≤ℤ result }
    ensures high { result ≤ℤ pos (2 ^ 31) }
{
    z as i64 - 512
}

fn half_of(z: i64) -> i32
    requires low { negsuc 0xBFFF_FFFF ≤ℤ z }
    requires high { z ≤ℤ pos (2 ^ 31) }
    ensures { result ≡ half z }
{
    z.div_euclid(2) as i32
}

fn shine(material: &Material, table: &[u8; 128], e: u16) -> u16
    requires { e ≤ 511 }
    ensures value { result ≡ shine material.now table.now e }
    ensures within { result ≤ 510 }
{
    let square = squared(e);
    if material.by_table {
        2 * table[square as usize / 4] as u16
    } else {
        square
    }
}

#[tactic(auto, using(crate::proofs::Facing::square_fits))]
fn squared(e: u16) -> u16
    requires { e ≤ 511 }
    ensures value { result ≡ e * e / 512 }
    ensures within { result ≤ 510 }
{
    (e as u32 * e as u32 / 512) as u16
}

#[tactic(auto, using(gx_matrix::proofs::Sums::casts), unfolding(crate::specs::Lights::light_levels))]
fn light_levels(material: &Material, table: &[u8; 128], light: Light, n: &[i32; 4]) -> Levels
    ensures value { result ≡ light_levels material.now table.now light n.now }
    ensures diffuse { result.diffuse ≤ 511 }
    ensures specular { result.specular ≤ 510 }
{
    let e = facing(dot(
        half(light.x),
        half(light.y),
        half_of(less_sight(light.z)),
        n,
    ));
    Levels {
        diffuse: facing(dot(light.x, light.y, light.z, n)),
        specular: shine(material, table, e),
    }
}

fn channel(k: u8, colour: u16) -> u8
    requires { k < 3 }
    ensures value { result ≡ channel k colour }
    ensures within { result ≤ 31 }
{
    (colour >> (5 * k) & 31) as u8
}

#[tactic(auto, using(crate::proofs::Facing::part_fits))]
fn part(reflection: u8, light: u8, level: u16) -> u16
    requires reflection { reflection ≤ 31 }
    requires light { light ≤ 31 }
    requires level { level ≤ 511 }
    ensures value { result ≡ reflection * light * level / 16384 }
    ensures within { result ≤ 31 }
{
    (reflection as u32 * light as u32 * level as u32 / 16384) as u16
}

#[tactic(auto, using(crate::proofs::Facing::ambient_fits))]
fn ambient(reflection: u8, light: u8) -> u16
    requires reflection { reflection ≤ 31 }
    requires light { light ≤ 31 }
    ensures value { result ≡ reflection * light / 32 }
    ensures within { result ≤ 31 }
{
    reflection as u16 * light as u16 / 32
}

#[tactic(auto, unfolding(crate::specs::Lights::share))]
fn share(k: u8, material: &Material, colour: u16, levels: Levels) -> u16
    requires k { k < 3 }
    requires diffuse { levels.diffuse ≤ 511 }
    requires specular { levels.specular ≤ 510 }
    ensures value { result ≡ share k material.now colour levels }
    ensures within { result ≤ 93 }
{
    let light = channel(k, colour);
    part(channel(k, material.specular), light, levels.specular)
        + part(channel(k, material.diffuse), light, levels.diffuse)
        + ambient(channel(k, material.ambient), light)
}

/// What a light adds to the three channels of a colour: red, green and blue.
#[tactic(auto, unfolding(crate::specs::Lights::added))]
fn added(s: &Numbers, n: &[i32; 4], i: u8) -> [u16; 3]
    requires { i < 4 }
    ensures value { result ≡ added s.now n.now i 0 ∷ added s.now n.now i 1 ∷ added s.now n.now i 2 ∷ [] }
    ensures red { added s.now n.now i 0 ≤ 93 }
    ensures green { added s.now n.now i 1 ≤ 93 }
    ensures blue { added s.now n.now i 2 ≤ 93 }
{
    if (s.attributes >> i) & 1 == 0 {
        return [0, 0, 0];
    }
    let light = s.light(i);
    let levels = light_levels(&s.material, &s.table, light, n);
    [
        share(0, &s.material, light.colour, levels),
        share(1, &s.material, light.colour, levels),
        share(2, &s.material, light.colour, levels),
    ]
}

/// A channel of the colour: what the material sends out, and what the four lights add, held to 31.
#[tactic(auto, unfolding(crate::specs::Lights::lit_channel))]
fn lit_channel(s: &Numbers, n: &[i32; 4], k: u8, zero: u16, one: u16, two: u16, three: u16) -> u16
    requires k { k < 3 }
    requires zero { (zero ≡ added s.now n.now 0 k) × (zero ≤ 93) }
    requires one { (one ≡ added s.now n.now 1 k) × (one ≤ 93) }
    requires two { (two ≡ added s.now n.now 2 k) × (two ≤ 93) }
    requires three { (three ≡ added s.now n.now 3 k) × (three ≤ 93) }
    ensures value { result ≡ lit_channel s.now n.now k }
    ensures within { result ≤ 31 }
{
    (channel(k, s.material.emission) as u16 + zero + one + two + three).min(31)
}

/// The colour of a vertex with a normal, which is turned by the vector matrix already.
#[tactic(auto, unfolding(crate::specs::Lights::lit_colour))]
pub fn lit_colour(s: &Numbers, n: &[i32; 4]) -> u16
    ensures { result ≡ lit_colour s.now n.now }
{
    let [red0, green0, blue0] = added(s, n, 0);
    let [red1, green1, blue1] = added(s, n, 1);
    let [red2, green2, blue2] = added(s, n, 2);
    let [red3, green3, blue3] = added(s, n, 3);
    let red = lit_channel(s, n, 0, red0, red1, red2, red3);
    let green = lit_channel(s, n, 1, green0, green1, green2, green3);
    let blue = lit_channel(s, n, 2, blue0, blue1, blue2, blue3);
    red + (green << 5) + (blue << 10)
}
