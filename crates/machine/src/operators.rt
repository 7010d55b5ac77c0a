ghost use Rattle.std.specs.Prelude.{◌≡◌, ◌+ℤ◌, ◌-ℤ◌, ◌*ℤ◌, MatchResult, Bool, ℤ};
ghost use Rattle.lang.specs.declared.value.Value.TheVariants.{Number, Truth};
ghost use Rattle.lang.specs.declared.fault.Fault.TheVariants.{Kind};
ghost use Rattle.meaning.specs.Tree.{minus, negate, add, sub, mul, equal as equal_to, less as less_than};
ghost use Rattle.meaning.specs.Operators.{ranged as ranged_in, with_sign, worked, conjoined, disjoined};

use lang::fault::Fault;
use lang::value::Value;

// The number that an operand has to be. A trait for this and `truth` would be longer than both, with its law for each.
fn number(v: Value) -> Result<i32, Fault>
    ensures { MatchResult result (λ z. v ≡ Number z) (λ e. (e ≡ Kind) × (b : Bool) × (v ≡ Truth b)) }
{
    match v {
        Value::Number(z) => Ok(z),
        Value::Truth(_) => Err(Fault::Kind),
    }
}

// The truth that an operand has to be.
fn truth(v: Value) -> Result<bool, Fault>
    ensures { MatchResult result (λ b. v ≡ Truth b) (λ e. (e ≡ Kind) × (z : ℤ) × (v ≡ Number z)) }
{
    match v {
        Value::Truth(b) => Ok(b),
        Value::Number(_) => Err(Fault::Kind),
    }
}

// A number in range, or the fault.
fn ranged(z: i64) -> Result<Value, Fault>
    ensures { result ≡ ranged_in z }
{
    i32::try_from(z)
        .map(Value::Number)
        .map_err(|_| Fault::Range)
}

// Functions of their own: inside `subtracted` and `multiplied` the proof that 64 bits hold the result did not close, and
// `sum` stands as they do.

fn sum(a: i32, b: i32) -> i64
    ensures { result ≡ a +ℤ b }
{
    a as i64 + b as i64
}

fn difference(a: i32, b: i32) -> i64
    ensures { result ≡ a -ℤ b }
{
    a as i64 - b as i64
}

fn product(a: i32, b: i32) -> i64
    ensures { result ≡ a *ℤ b }
{
    a as i64 * b as i64
}

// Each operator is two lines. One function that takes the operation would state its clause by the closure's, and be no
// plainer.

pub fn opposite(v: Value) -> Result<Value, Fault>
    ensures { result ≡ with_sign minus v }
{
    let z = number(v)?;
    ranged(-(z as i64))
}

pub fn negated(v: Value) -> Result<Value, Fault>
    ensures { result ≡ with_sign negate v }
{
    let b = truth(v)?;
    Ok(Value::Truth(!b))
}

pub fn added(p: Value, q: Value) -> Result<Value, Fault>
    ensures { result ≡ worked add p q }
{
    let (a, b) = (number(p)?, number(q)?);
    ranged(sum(a, b))
}

pub fn subtracted(p: Value, q: Value) -> Result<Value, Fault>
    ensures { result ≡ worked sub p q }
{
    let (a, b) = (number(p)?, number(q)?);
    ranged(difference(a, b))
}

pub fn multiplied(p: Value, q: Value) -> Result<Value, Fault>
    ensures { result ≡ worked mul p q }
{
    let (a, b) = (number(p)?, number(q)?);
    ranged(product(a, b))
}

pub fn equal(p: Value, q: Value) -> Result<Value, Fault>
    ensures { result ≡ worked equal_to p q }
{
    let (a, b) = (number(p)?, number(q)?);
    Ok(Value::Truth(a == b))
}

pub fn less(p: Value, q: Value) -> Result<Value, Fault>
    ensures { result ≡ worked less_than p q }
{
    let (a, b) = (number(p)?, number(q)?);
    Ok(Value::Truth(a < b))
}

pub fn both(p: Value, q: Value) -> Result<Value, Fault>
    ensures { result ≡ conjoined p q }
{
    let (a, b) = (truth(p)?, truth(q)?);
    Ok(Value::Truth(a && b))
}

pub fn either(p: Value, q: Value) -> Result<Value, Fault>
    ensures { result ≡ disjoined p q }
{
    let (a, b) = (truth(p)?, truth(q)?);
    Ok(Value::Truth(a || b))
}
