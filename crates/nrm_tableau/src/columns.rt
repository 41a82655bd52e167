//! The columns of a program's tableaux: the products, the slack of each constraint row, the right side.
#![tactic(auto)]

ghost use Rattle.std.specs.Prelude.{◌≡◌, ◌<◌};
ghost use Rattle.nrm_lp.specs.Limits.{IsLimited};
ghost use Rattle.nrm_lp.specs.Tableau.{product_count, row_count, right_side, slack};

use nrm_lp::Program;

/// How many constraint rows there are.
pub(crate) fn row_count(program: &Program) -> u16
    ensures count { result ≡ row_count program.now }
    ensures limits { IsLimited program.now }
{
    u16::from(program.leg_count()) + program.product_count()
}

/// The slack column of a constraint row.
pub(crate) fn slack(program: &Program, row: u16) -> u16
    requires { row < row_count program.now }
    ensures column { result ≡ slack program.now row }
    ensures limits { IsLimited program.now }
{
    program.product_count() + row
}

/// The last column.
pub(crate) fn right_side(program: &Program) -> u16
    ensures column { result ≡ right_side program.now }
    ensures limits { IsLimited program.now }
{
    program.product_count() + row_count(program)
}
