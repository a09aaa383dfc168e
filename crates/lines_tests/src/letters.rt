// Letters, and the functions that they name.
use lines::function::Function;
use lines::refusal::Refusal;
use std::test::*;

#[test]
fn capital_and_small_letters(rt: HostRuntime) -> Result<(), Fail> {
    assert_eq!(rt; Function::try_from('S'), Ok(Function::Sinh));
    assert_eq!(rt; Function::try_from('s'), Ok(Function::Asinh));
    Ok(())
}

#[test]
fn letters_of_no_function(rt: HostRuntime) -> Result<(), Fail> {
    assert_eq!(rt; Function::try_from('e'), Err(Refusal::Malformed));
    assert_eq!(rt; Function::try_from(' '), Err(Refusal::Malformed));
    Ok(())
}
