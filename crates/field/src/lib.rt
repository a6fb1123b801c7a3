// The field of residues modulo a prime: the calls given to users, which test every argument, and the operations that only the engine uses.
#![tactic(auto)]

ghost use Rattle.std.specs.Prelude.{◌≡◌, ◌+◌, ◌-◌, ◌*◌, ◌%◌, ◌^◌, ◌<◌, ◌≤◌, true, ◌≢◌, ◌↔◌};
ghost use Rattle.field.specs.Prime.{Prime};
ghost use Rattle.field.specs.Modulus.{Modulus, largest};
ghost use Rattle.field.specs.Inverse.{Inverse};
ghost use Rattle.field.specs.Gathered.{gathered, Room, Gathers};
ghost use Rattle.field.specs.Fixed.{Fixed};
ghost use Rattle.field.specs.Number.{number_of};
ghost use Rattle.field.specs.Coprime.{Coprime};
ghost use Rattle.field.specs.Bezout.{Bezout};

// Residues modulo a positive number. Only the inverse needs that it is prime.
#[derive(Clone, Copy)]
pub struct Field {
    pub modulus: u32,
    pub ghost positive: { 0 < modulus },
}

// A sum of products whose first factors are cut in two: low has what their lower 16 bits give, high what their upper 16 bits give.
#[derive(Clone, Copy)]
pub struct Halves {
    pub low: u64,
    pub high: u64,
}

// What Euclid's steps give for a and b: x times b is 1 more than k times a.
#[derive(Clone, Copy)]
struct Cofactors {
    x: u32,
    k: u32,
}

// A factor of many products: c, and c * 2^32 / p. That it is one, `Fixed p m`, is asked beside the field, since the type does not know the modulus.
#[derive(Clone, Copy)]
pub struct FixedFactor {
    pub factor: u32,
    pub quotient: u32,
}

// The refusals of document 01. Each is its number there.
#[derive(Clone, Copy, Debug, PartialEq, Eq)]
pub enum Refusal {
    Modulus = 1,
    Count = 2,
    Order = 3,
    Length = 4,
    Entry = 5,
    Coefficient = 6,
    Numerator = 7,
    FileLength = 8,
    BlockNumber = 9,
    Check = 10,
    BlockCount = 11,
    SpareWord = 12,
    NoFraction = 13,
    Sets = 14,
}

impl Refusal {
    pub fn number(self) -> u32
        ensures { result ≡ number_of self }
    {
        self as u32
    }
}

// The steps from 7 on through the numbers that are no multiples of 2, 3 or 5; after eight, 30 further on, they begin again.
const STEPS: [u32; 8] = [4, 2, 4, 2, 4, 6, 2, 6];

// Whether such a number above 1 has no divisor from 7 to its square root. Its divisors are such numbers too, so no others are tried.
fn rest_is_prime(n: u32) -> bool
    requires { (1 < n) × (n % 2 ≢ 0) × (n % 3 ≢ 0) × (n % 5 ≢ 0) }
    ensures { (result ≡ true) ↔ Prime n }
{
    let mut d = 7;
    let mut i = 0;
    // Kept as a while loop: it ends by the square of d, and i only turns the wheel of steps.
    while d as u64 * d as u64 <= n as u64 {
        if n % d == 0 {
            return false;
        }
        d += STEPS[i];
        i = (i + 1) % 8;
    }
    true
}

// By trial division: the work grows with the square root.
pub fn is_prime(n: u32) -> bool
    ensures { (result ≡ true) ↔ Prime n }
{
    if n < 2 {
        return false;
    }
    if n % 2 == 0 {
        return n == 2;
    }
    if n % 3 == 0 {
        return n == 3;
    }
    if n % 5 == 0 {
        return n == 5;
    }
    rest_is_prime(n)
}

// Euclid's steps, each with one division: from r * x = 1 + k * b follows b * (a - (q * x + k)) = 1 + (b - x) * a, for a = q * b + r.
fn euclid(a: u32, b: u32) -> Cofactors
    requires { (0 < b) × (b < a) × Coprime a b }
    ensures { Bezout a b result.x result.k }
{
    if b == 1 {
        return Cofactors { x: 1, k: 0 };
    }
    let q = a / b;
    let r = a % b;
    let e = euclid(b, r);
    Cofactors {
        x: a - (q * e.x + e.k),
        k: b - e.x,
    }
}

// r modulo p, and p less. That is negative: a word that wraps, above LARGEST.
fn less(r: u32, p: u32) -> u32
    requires { (r < p + p) × (p ≤ largest) }
    ensures { result + p ≡ 2 ^ 32 + r % p }
{
    let d = r.wrapping_sub(p);
    if d > Field::LARGEST {
        return d;
    }
    d.wrapping_sub(p)
}

// a + x modulo p, from a and x - p: where the sum is negative, p is added again.
fn more(a: u32, d: u32, p: u32) -> u32
    requires { (a < p) × (p ≤ largest) × (2 ^ 32 ≤ d + p) }
    ensures { result ≡ (a + (d + p - 2 ^ 32)) % p }
{
    let e = a.wrapping_add(d);
    if e > Field::LARGEST {
        return e.wrapping_add(p);
    }
    e
}

impl Halves {
    // One product more, without a remainder.
    pub fn plus_product(self, a: u32, b: u32) -> Halves
        requires { Room 1 self }
        ensures { Gathers 1 self (a * b) result }
    {
        Halves {
            low: self.low + (a % 65536) as u64 * b as u64,
            high: self.high + (a / 65536) as u64 * b as u64,
        }
    }
}

impl Field {
    ghost use Rattle.field.specs.Calls.{Tests, operand_order, operands_order, field_says, residue_says, inverse_says, MakeOutcome, ResidueOutcome, AddOutcome, MultiplyOutcome, InvertOutcome};

    pub const LARGEST: u32 = 2147483647;

    pub fn admits(p: u32) -> bool
        ensures { (result ≡ true) ↔ Modulus p }
    {
        if p > Field::LARGEST {
            return false;
        }
        is_prime(p)
    }

    // The tests of a call with one operand.
    fn test_operand(p: u32, a: u32) -> Result<(), Refusal>
        ensures { Tests (operand_order p a) result }
    {
        if !Field::admits(p) {
            return Err(Refusal::Modulus);
        }
        if a >= p {
            return Err(Refusal::Coefficient);
        }
        Ok(())
    }

    // The tests of a call with two operands.
    fn test_operands(p: u32, first: u32, second: u32) -> Result<(), Refusal>
        ensures { Tests (operands_order p first second) result }
    {
        Field::test_operand(p, first)?;
        if second >= p {
            return Err(Refusal::Coefficient);
        }
        Ok(())
    }

    pub fn make(p: u32) -> Result<Field, Refusal>
        ensures { MakeOutcome p (field_says result) }
    {
        if Field::admits(p) {
            Ok(Field { modulus: p })
        } else {
            Err(Refusal::Modulus)
        }
    }

    // The residue of n, where the operands a and b pass the tests.
    fn residue_of(p: u32, a: u32, b: u32, n: u64) -> Result<u32, Refusal>
        ensures { ResidueOutcome p a b n (residue_says result) }
    {
        Field::test_operands(p, a, b)?;
        Ok(Field { modulus: p }.residue(n))
    }

    pub fn add(p: u32, a: u32, b: u32) -> Result<u32, Refusal>
        ensures { AddOutcome p a b (residue_says result) }
    {
        Field::residue_of(p, a, b, a as u64 + b as u64)
    }

    pub fn multiply(p: u32, a: u32, b: u32) -> Result<u32, Refusal>
        ensures { MultiplyOutcome p a b (residue_says result) }
    {
        Field::residue_of(p, a, b, a as u64 * b as u64)
    }

    // Zero has no inverse.
    pub fn invert(p: u32, a: u32) -> Result<Option<u32>, Refusal>
        ensures { InvertOutcome p a (inverse_says result) }
    {
        Field::test_operand(p, a)?;
        if a == 0 {
            return Ok(None);
        }
        Ok(Some(Field { modulus: p }.inverse(a)))
    }

    fn residue(self, n: u64) -> u32
        ensures { result ≡ n % self.modulus }
    {
        (n % self.modulus as u64) as u32
    }

    // a + b * c: what factors and cleared rows are made of. It fits 64 bits whatever the words are.
    pub fn plus_product(self, a: u32, b: u32, c: u32) -> u32
        ensures { result ≡ (a + b * c) % self.modulus }
    {
        self.residue(a as u64 + b as u64 * c as u64)
    }

    // A residue as the factor of many products: one division for all of them.
    pub fn fixed(self, c: u32) -> FixedFactor
        requires { c < self.modulus }
        ensures { (result.factor ≡ c) × Fixed self.modulus result }
    {
        let p = self.modulus;
        let w = c as u64 * 4294967296 / p as u64;
        FixedFactor {
            factor: c,
            quotient: w as u32,
        }
    }

    // a + c * y for a fixed c, without a division: q is c * y / p or one less, so that less than 2p is left.
    pub fn plus_multiple(self, a: u32, m: FixedFactor, y: u32) -> u32
        requires { (a < self.modulus) × Fixed self.modulus m }
        ensures { result ≡ (a + m.factor * y) % self.modulus }
    {
        let p = self.modulus;
        if Field::LARGEST < p {
            return self.plus_product(a, m.factor, y);
        }
        let q = m.quotient as u64 * y as u64 / 4294967296;
        let r = (m.factor as u64 * y as u64 - q * p as u64) as u32;
        more(a, less(r, p), p)
    }

    // The residue of a gathered sum: two remainders, however many products it has.
    pub fn sum_of(self, h: Halves) -> u32
        requires { Room 1 h }
        ensures { result ≡ gathered h % self.modulus }
    {
        let high = self.residue(h.high);
        self.residue(h.low + high as u64 * 65536)
    }

    pub fn inverse(self, a: u32) -> u32
        requires { Prime self.modulus × (0 < a) × (a < self.modulus) }
        ensures { Inverse self.modulus a result }
    {
        euclid(self.modulus, a).x
    }
}
