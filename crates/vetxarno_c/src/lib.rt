// The six calls, exported to C. A slice is a pointer and a length there; include/vetxarno.h has the prototypes.
#![tactic(auto)]

ghost use Rattle.call_answers.specs.Calls.{RegisterCall, JoinCall, QueryCall, ReadCall, FitCall, AskCall};

// The register call.
#[unsafe(no_mangle)]
pub extern "C" fn vetxarno_register(text: &[u8], held: &mut [u8]) -> i32
    ensures { RegisterCall text.now held.old held.new result }
{
    vetxarno::vetxarno_register(text, held)
}

// The join call.
#[unsafe(no_mangle)]
pub extern "C" fn vetxarno_join<'a>(first: &'a [u8], second: &'a [u8], held: &mut [u8]) -> i32
    ensures { JoinCall first.now second.now held.old held.new result }
{
    vetxarno::vetxarno_join(first, second, held)
}

// The query call.
#[unsafe(no_mangle)]
pub extern "C" fn vetxarno_query(register: &[u8], text: &[u8], held: &mut [u8]) -> i32
    ensures { QueryCall register.now text.now held.old held.new result }
{
    vetxarno::vetxarno_query(register, text, held)
}

// The read call.
#[unsafe(no_mangle)]
pub extern "C" fn vetxarno_read(text: &[u8], tree: &mut [u8]) -> i32
    ensures { ReadCall text.now tree.old tree.new result }
{
    vetxarno::vetxarno_read(text, tree)
}

// The fit call.
#[unsafe(no_mangle)]
pub extern "C" fn vetxarno_fit(tree: &[u8], register: &[u8], held: &mut [u8]) -> i32
    ensures { FitCall tree.now register.now held.old held.new result }
{
    vetxarno::vetxarno_fit(tree, register, held)
}

// The ask call.
#[unsafe(no_mangle)]
pub extern "C" fn vetxarno_ask(query: &[u8], register: &[u8], marks: &mut [u8]) -> i32
    ensures { AskCall query.now register.now marks.old marks.new result }
{
    vetxarno::vetxarno_ask(query, register, marks)
}
