// Document 01, "Netlist and board machine": the outputs of a netlist, one per row, by value. Rests on `limits`, `lists` and `layout_rules`.
ghost use Rattle.std.specs.Prelude.{◌≡◌, []};
ghost use Rattle.compile_lists.specs.Lists.{outputs_list};

use layout_rules::Output;
use limits::MAX_ROWS;
use lists::List;

// As many as rows at the most.
pub type Outputs = List<Output, MAX_ROWS>;

pub fn no_outputs() -> Outputs
    ensures { outputs_list result ≡ [] }
{
    List::empty(Output {
        sign: 0,
        symbol: 0,
        shift: 0,
        width: 0,
    })
}
