//! The values of the machine.
ghost use Rattle.std.specs.Prelude.{◌≡◌, IfOk};
ghost use Rattle.delta_atoms.specs.Plain.{value_of, IsInOrder};

use super::Delta;
use hera_meaning::Scalar;
use hera_rows::{RowBuf, RowSet};
use std::alloc::AllocError;

/// A scalar, a row, a relation or a delta.
#[derive(Drop)]
pub enum Value {
    Scalar(Scalar),
    Row(RowBuf),
    Rel(RowSet),
    Delta(Delta),
}

/// A value of its own that equals `v`.
pub fn copy_value(v: &Value) -> Result<Value, AllocError>
    ensures copy { IfOk result (λ copy. copy ≡ v.now) }
    ensures plain { IfOk result (λ copy. value_of copy ≡ value_of v.now) }
    // The rows of a relation ascend, and the atoms of a delta.
    ensures ordered { IsInOrder (value_of v.now) }
{
    match v {
        Value::Scalar(scalar) => Ok(Value::Scalar(scalar.copy()?)),
        Value::Row(row) => Ok(Value::Row(row.copy()?)),
        Value::Rel(rows) => {
            let _len = rows.len();
            Ok(Value::Rel(rows.copy()?))
        }
        Value::Delta(delta) => {
            let _fails = delta.is_fail();
            Ok(Value::Delta(delta.copy()?))
        }
    }
}
