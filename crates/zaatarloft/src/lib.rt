// Document 01's eleven calls for hosts in C and Rust, over numbers and slices of numbers alone. Rests on `compile`, `netlist_read`,
// `netlist_check`, `netlist_run`, `layout_step`, `generator`, `market`, `verilog`, `clock_delays` and `clock`.
// Each function returns the refusal's number, 0 where it accepts, and writes the other numbers of the answer through the references.
// The names say raw: include/zaatarloft.h and rust/src/lib.rs have calls over them that give an answer as one struct.
#![tactic(auto)]

ghost use Rattle.std.specs.Prelude.{◌≡◌, length};
ghost use Rattle.compile_rules.specs.Compile.{compile_answer, compile_buffer};
ghost use Rattle.netlist_rules.specs.Read.{read_answer, sample_width_answer};
ghost use Rattle.netlist_rules.specs.Check.{check_answer};
ghost use Rattle.netlist_rules.specs.Run.{run_answer, run_outputs};
ghost use Rattle.layout_rules.specs.Step.{step_numbers};
ghost use Rattle.generator.specs.Generator.{generate_answer, generate_buffer};
ghost use Rattle.market_rules.specs.Market.{market_answer, market_buffer};
ghost use Rattle.verilog_rules.specs.Answer.{verilog_answer, verilog_buffer};
ghost use Rattle.clock_rules.specs.Answer.{registers_answer, clock_answer, clock_outputs, clock_store};

// Compile: from a matrix record, or no bytes, to the netlist for samples of a width, at the start of the lent buffer.
#[unsafe(no_mangle)]
pub extern "C" fn zaatarloft_raw_compile(
    matrix: &[u8],
    sample_width: u8,
    buffer: &mut [u8],
    place: &mut usize,
    written: &mut usize,
    operations: &mut u16,
    plain: &mut u16,
    divisors: &mut u16,
    replacements: &mut u16,
    depth: &mut u16,
    negated: &mut u16,
) -> u8
    ensures answer { record { refusal = result; place = place.new; written = written.new; operations = operations.new; plain = plain.new; divisors = divisors.new; replacements = replacements.new; depth = depth.new; negated = negated.new } ≡ compile_answer sample_width matrix.now (length buffer.old) }
    ensures buffer_after { buffer.new ≡ compile_buffer sample_width matrix.now buffer.old }
{
    let compiled = compile::compile(matrix, sample_width, buffer);
    *place = compiled.place;
    *written = compiled.written;
    *operations = compiled.operations;
    *plain = compiled.plain;
    *divisors = compiled.divisors;
    *replacements = compiled.replacements;
    *depth = compiled.depth;
    *negated = compiled.negated;
    compiled.refusal
}

// Read: m, n, operations and depth of a netlist.
#[unsafe(no_mangle)]
pub extern "C" fn zaatarloft_raw_read(
    netlist: &[u8],
    place: &mut usize,
    m: &mut u8,
    n: &mut u8,
    operations: &mut u16,
    depth: &mut u16,
) -> u8
    ensures { record { refusal = result; place = place.new; m = m.new; n = n.new; operations = operations.new; depth = depth.new } ≡ read_answer netlist.now }
{
    let reading = netlist_read::read(netlist);
    *place = reading.place;
    *m = reading.m;
    *n = reading.n;
    *operations = reading.operations;
    *depth = reading.depth;
    reading.refusal
}

// Sample width: that of a netlist's head.
#[unsafe(no_mangle)]
pub extern "C" fn zaatarloft_raw_sample_width(
    netlist: &[u8],
    place: &mut usize,
    width: &mut u8,
) -> u8
    ensures { record { refusal = result; place = place.new; width = width.new } ≡ sample_width_answer netlist.now }
{
    let answer = netlist_read::sample_width(netlist);
    *place = answer.place;
    *width = answer.width;
    answer.refusal
}

// Check: whether a netlist computes a matrix.
#[unsafe(no_mangle)]
pub extern "C" fn zaatarloft_raw_check(matrix: &[u8], netlist: &[u8], place: &mut usize) -> u8
    ensures { record { refusal = result; place = place.new } ≡ check_answer matrix.now netlist.now }
{
    let checked = netlist_check::check(matrix, netlist);
    *place = checked.place;
    checked.refusal
}

// Run: a netlist on samples, into the lent outputs.
#[unsafe(no_mangle)]
pub extern "C" fn zaatarloft_raw_run(
    netlist: &[u8],
    samples: &[i32],
    outputs: &mut [i64],
    place: &mut usize,
) -> u8
    ensures answer { record { refusal = result; place = place.new } ≡ run_answer netlist.now samples.now (length outputs.old) }
    ensures outputs_after { outputs.new ≡ run_outputs netlist.now samples.now outputs.old }
{
    let ran = netlist_run::run(netlist, samples, outputs);
    *place = ran.place;
    ran.refusal
}

// Step: the numbers of the step over the record at a place. An accepted record's payload starts 4 bytes behind that place and ends
// at the next.
#[unsafe(no_mangle)]
pub extern "C" fn zaatarloft_raw_step(
    bytes: &[u8],
    at: usize,
    place: &mut usize,
    kind: &mut u16,
    next: &mut usize,
) -> u8
    ensures { record { refusal = result; place = place.new; kind = kind.new; next = next.new } ≡ step_numbers bytes.now at }
{
    let numbers = layout_step::step_numbers(bytes, at);
    *place = numbers.place;
    *kind = numbers.kind;
    *next = numbers.next;
    numbers.refusal
}

// Generate: the matrix record of m, n and a seed, at the start of the lent buffer.
#[unsafe(no_mangle)]
pub extern "C" fn zaatarloft_raw_generate(
    m: u8,
    n: u8,
    seed: u32,
    buffer: &mut [u8],
    place: &mut usize,
    written: &mut usize,
) -> u8
    ensures answer { record { refusal = result; place = place.new; written = written.new } ≡ generate_answer m n seed (length buffer.old) }
    ensures buffer_after { buffer.new ≡ generate_buffer m n seed buffer.old }
{
    let generated = generator::generate(m, n, seed, buffer);
    *place = generated.place;
    *written = generated.written;
    generated.refusal
}

// Read Matrix Market: from a Matrix Market file to the matrix record, at the start of the lent buffer.
#[unsafe(no_mangle)]
pub extern "C" fn zaatarloft_raw_read_matrix_market(
    text: &[u8],
    buffer: &mut [u8],
    place: &mut usize,
    written: &mut usize,
) -> u8
    ensures answer { record { refusal = result; place = place.new; written = written.new } ≡ market_answer text.now (length buffer.old) }
    ensures buffer_after { buffer.new ≡ market_buffer text.now buffer.old }
{
    let converted = market::read_matrix_market(text, buffer);
    *place = converted.place;
    *written = converted.written;
    converted.refusal
}

// Write Verilog: from a netlist to the text of its module, at the start of the lent buffer.
#[unsafe(no_mangle)]
pub extern "C" fn zaatarloft_raw_write_verilog(
    netlist: &[u8],
    buffer: &mut [u8],
    place: &mut usize,
    written: &mut usize,
) -> u8
    ensures answer { record { refusal = result; place = place.new; written = written.new } ≡ verilog_answer netlist.now (length buffer.old) }
    ensures buffer_after { buffer.new ≡ verilog_buffer netlist.now buffer.old }
{
    let wrote = verilog::write_verilog(netlist, buffer);
    *place = wrote.place;
    *written = wrote.written;
    wrote.refusal
}

// Registers: how many the clocked form of a netlist has.
#[unsafe(no_mangle)]
pub extern "C" fn zaatarloft_raw_registers(
    netlist: &[u8],
    place: &mut usize,
    registers: &mut usize,
) -> u8
    ensures { record { refusal = result; place = place.new; registers = registers.new } ≡ registers_answer netlist.now }
{
    let total = clock_delays::registers(netlist);
    *place = total.place;
    *registers = total.registers;
    total.refusal
}

// Clock: a list of vectors through the clocked form of a netlist, in the lent store, into the lent outputs.
#[unsafe(no_mangle)]
pub extern "C" fn zaatarloft_raw_clock(
    netlist: &[u8],
    samples: &[i32],
    store: &mut [i64],
    outputs: &mut [i64],
    place: &mut usize,
) -> u8
    ensures answer { record { refusal = result; place = place.new } ≡ clock_answer netlist.now samples.now (length store.old) (length outputs.old) }
    ensures store_after { store.new ≡ clock_store netlist.now samples.now store.old (length outputs.old) }
    ensures outputs_after { outputs.new ≡ clock_outputs netlist.now samples.now store.old outputs.old }
{
    let clocked = clock::clock(netlist, samples, store, outputs);
    *place = clocked.place;
    clocked.refusal
}
