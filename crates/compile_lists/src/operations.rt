// Document 01, "Netlist and board machine": the operations of a netlist in order, by value. Rests on `limits`, `lists` and `layout_rules`.
ghost use Rattle.std.specs.Prelude.{◌≡◌, []};
ghost use Rattle.compile_lists.specs.Lists.{operations_list};

use layout_rules::Operation;
use limits::MAX_OPERATIONS;
use lists::List;

// "operations (2 bytes, at most 504)".
pub type Operations = List<Operation, MAX_OPERATIONS>;

pub fn no_operations() -> Operations
    ensures { operations_list result ≡ [] }
{
    List::empty(Operation {
        sign: 0,
        a: 0,
        sa: 0,
        b: 0,
        sb: 0,
        width: 0,
    })
}
