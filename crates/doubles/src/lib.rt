// Doubles that are whole numbers: read, and layers of cells added up in them.
#![tactic(auto)]

ghost use Rattle.std.specs.Prelude.{◌≡◌, ◌^◌, ◌≤◌, unwrap_or, IfSome};
ghost use Rattle.doubles.specs.Doubles.{number_of, with_layer};

// The whole number up to 1,048,576 that a double is. Minus zero is 0.
pub fn number(x: f64) -> Option<u64>
    ensures read { unwrap_or result 1048577 ≡ number_of x }
    ensures small { IfSome result (λ n. n ≤ 1048576) }
{
    if x > -1.0 && x < 18446744073709551616.0 {
        let n = std::num::truncating_f64_to_u64(x);
        if n <= 1048576 && n as f64 == x {
            return Some(n);
        }
    }
    None
}

// One layer more: area times height, added, each of the two steps rounded once.
pub fn add_layer(sum: f64, area: u64, height: u64) -> f64
    requires { (area ≤ 2 ^ 53) × (height ≤ 2 ^ 53) }
    ensures { result ≡ with_layer sum (record { area = area; height = height }) }
{
    sum + area as f64 * height as f64
}
