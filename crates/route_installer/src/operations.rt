//! Operations one after another, and their lines.
ghost use Rattle.std.specs.Prelude.{⊤, List, map, All};
ghost use Rattle.ipnet.specs.IpNets.{family, parts};
ghost use Rattle.ipnet_blocks.specs.Networks.{IsTruncated};
ghost use Rattle.route_laws.specs.Operations.{Operation};
ghost use Rattle.route_program.specs.Counted.{CanCount};
ghost use Rattle.route_program.specs.Devices.{Writes};
ghost use Rattle.route_table.specs.Operations.{GivesOperation, network_of, operation_of};
ghost use Rattle.route_installer.specs.InnerInstalling.{operation_bytes};

use arrayvec::ArrayVec;
use route_lines::FibUpdate;
use route_program::{Counted, RunError, write_piece};
use route_table::{Between, Operation};
use std::io::Write;

/// Operations on an installed table, one after another.
pub(crate) trait Operations: Drop {
    /// The operations that are left.
    ghost left: { Self → List Operation };

    /// Whether their networks have no host bits.
    ghost can_give: { Self → Type 0 };

    /// Returns the next operation.
    fn next_operation(&mut self) -> Option<Operation>
        requires { can_give self.old }
        ensures operation { GivesOperation (left self.old) result (left self.new) }
        ensures others { can_give self.new };
}

/// The operations between two tables.
impl Operations for Between<'_> {
    ghost left = { λ operations. operations };

    ghost can_give = { λ operations. ⊤ };

    fn next_operation(&mut self) -> Option<Operation> {
        self.next()
    }
}

/// Operations in a list.
impl Operations for &[Operation] {
    ghost left = { λ operations. map operation_of operations.now };

    ghost can_give = { λ operations. All (λ o. IsTruncated (family (network_of o)) (parts (network_of o))) operations.now };

    fn next_operation(&mut self) -> Option<Operation> {
        let (operation, others) = self.split_first()?;
        *self = others;
        Some(*operation)
    }
}

/// Writes a line for each operation.
///
/// # Errors
/// Only `Write`: if `write` fails or writes nothing. Then only a beginning of the lines was written.
pub(crate) fn write_operations<W: Write, O: Operations>(
    writer: &mut Counted<W>,
    mut operations: O,
) -> Result<(), RunError>
    requires counts { CanCount writer.old }
    requires operations { O.can_give operations }
    ensures { Writes W.contents writer.old writer.new result (operation_bytes (O.left operations)) }
{
    let mut text = ArrayVec::new();
    while let Some(operation) = operations.next_operation() {
        FibUpdate::from(operation).print_to(&mut text);
        write_piece(writer, text.as_slice())?;
    }
    Ok(())
}
