// The check of schema bytes: refusal 1.

#![tactic(auto)]

ghost use Rattle.std.specs.Prelude.{◌≡◌};
ghost use Rattle.schema.specs.Check;

use schema::SchemaError;

// The check of schema bytes.
pub fn check_schema(bytes: &[u8]) -> Result<(), SchemaError>
    ensures { result ≡ Check.check_schema bytes.now }
{
    if !schema_form::is_well_formed(bytes) {
        return Err(SchemaError::Malformed);
    }
    Ok(())
}

// The number of an answer: 0, or that of the refusal.
pub fn number(answer: Result<(), SchemaError>) -> u8
    ensures { result ≡ Check.number_of answer }
{
    match answer {
        Ok(()) => 0,
        Err(SchemaError::Malformed) => 1,
    }
}
