//! What statements weigh.

ghost use Rattle.std.specs.Prelude.{◌≡◌, ◌≤◌};
ghost use Rattle.redn_kernel.specs.Program.{weight_of, weight_of_all};

use redn_kernel::Kernel;

/// The weights of some statements together.
#[cycle(weight)]
pub fn weight(body: &[Kernel]) -> usize
    requires { weight_of_all body.now ≤ 4096 }
    ensures { result ≡ weight_of_all body.now }
{
    let mut sum = 0;
    for statement in body {
        sum += statement_weight(statement);
    }
    sum
}

#[cycle(weight)]
fn statement_weight(statement: &Kernel) -> usize
    requires { weight_of statement.now ≤ 4096 }
    ensures { result ≡ weight_of statement.now }
{
    match statement {
        Kernel::If { yes, no, .. } => 1 + weight(yes.as_slice()) + weight(no.as_slice()),
        Kernel::Loop { body } => 1 + weight(body.as_slice()),
        Kernel::Repeat { body, .. } => 2 + weight(body.as_slice()),
        Kernel::Lookup { probes, .. } => (*probes).min(4) as usize + 1,
        Kernel::Walk { .. } => 5,
        _ => 1,
    }
}
