use code_emit::{EmitFault, emit};
use core_tree::{
    Arith, Core, CoreFunction, CoreLine, CoreScript, CoreSet, CoreState, CoreStatement, CoreType,
    Value,
};
use papy_base::{Made, Name, Text};
use pex_values::Pex;
use std::alloc::Global;
use std::test::Fail;

fn int(number: i32) -> Core {
    Core::Lit(Value::Int(number))
}

fn sum(alloc: Global, left: Core, right: Core) -> Made<Core> {
    let left = Box::new(alloc, left)?;
    Ok(Core::Arith(Arith::Add, left, Box::new(alloc, right)?))
}

fn function(alloc: Global, body: Vec<CoreLine>) -> Made<CoreFunction> {
    Ok(CoreFunction {
        name: Name::from_bytes(alloc, b"F")?,
        parameters: vec![in alloc; CoreType::Int]?,
        locals: Vec::new(alloc),
        result: Some(CoreType::Int),
        is_global: false,
        is_native: false,
        doc: None,
        flags: 0,
        body,
        end_line: 9,
    })
}

fn script(alloc: Global, of: CoreFunction) -> Made<CoreScript> {
    let mut states = Vec::new(alloc);
    states.push(CoreState {
        name: Name::from_bytes(alloc, b"")?,
        functions: vec![in alloc; of]?,
    })?;
    Ok(CoreScript {
        file: Text::try_from_bytes(alloc, b"folder/A.psc")?,
        name: Name::from_bytes(alloc, b"A")?,
        parent: None,
        flags: 0,
        doc: None,
        auto_state: None,
        variables: Vec::new(alloc),
        properties: Vec::new(alloc),
        states,
    })
}

/// The files of a set whose last script has a method `F(Int)` with this one statement, behind the prelude's six.
fn emitted(alloc: Global, form: CoreStatement) -> Result<Vec<Pex>, EmitFault> {
    let mut scripts = Vec::new(alloc);
    for _ in 0..6 {
        let empty = function(alloc, Vec::new(alloc))?;
        scripts.push(script(alloc, empty)?)?;
    }
    let body = vec![in alloc; CoreLine { line: 5, form }]?;
    let method = function(alloc, body)?;
    scripts.push(script(alloc, method)?)?;
    let set = CoreSet { scripts };
    emit(alloc, &set)
}

fn fault(alloc: Global, form: CoreStatement) -> Option<EmitFault> {
    let files = emitted(alloc, form);
    match &files {
        Ok(_) => None,
        Err(fault) => Some(*fault),
    }
}

/// How many instructions the method has.
fn length(files: &[Pex]) -> Option<usize> {
    let object = files.first()?.objects.first()?;
    let state = object.states.first()?;
    let (_, function) = state.functions.first()?;
    Some(function.code.len())
}

fn nested(alloc: Global, levels: usize, left: bool) -> Made<Core> {
    let mut of = int(0);
    for _ in 0..levels {
        of = if left {
            sum(alloc, of, int(1))?
        } else {
            sum(alloc, int(1), of)?
        };
    }
    Ok(of)
}

#[test]
fn the_longest_chains_are_written(rt: HostRuntime) -> Result<(), Fail> {
    let alloc = rt.alloc();
    for (left, most, more) in [(true, 3999, 4000), (false, 998, 999)] {
        let files = emitted(alloc, CoreStatement::Plain(nested(alloc, most, left)?))?;
        assert_eq!(rt; length(&files), Some(most));
        let over = CoreStatement::Plain(nested(alloc, more, left)?);
        assert_eq!(rt; fault(alloc, over), Some(EmitFault::TooLarge));
    }
    Ok(())
}

#[test]
fn numbers_that_name_nothing_are_refused(rt: HostRuntime) -> Result<(), Fail> {
    let alloc = rt.alloc();
    let instance = Core::Lit(Value::Instance(0));
    for of in [Core::Local(1), Core::Field(0), instance] {
        let found = fault(alloc, CoreStatement::Plain(of));
        assert_eq!(rt; found, Some(EmitFault::OutOfRange));
    }
    Ok(())
}
