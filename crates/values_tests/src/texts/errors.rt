//! What errors print.
use iox2_texts::attribute::{
    AttributeDefinitionError, AttributeKey, AttributeValue, AttributeVerificationError,
};
use iox2_texts::service_name::ServiceNameError;
use std::error::Error;
use std::process::Abort;
use test_support::printing::is_printed_as;

fn key(rt: &impl Abort, bytes: &[u8]) -> AttributeKey {
    AttributeKey::new(bytes).expect(rt, "a key")
}

fn pair(rt: &impl Abort, k: &[u8], v: &[u8]) -> AttributeVerificationError {
    let value = AttributeValue::new(v).expect(rt, "a value");
    AttributeVerificationError::IncompatibleAttribute((key(rt, k), value))
}

/// Whether what is known to be an error alone prints this text.
fn is_reported_as(error: &impl Error, text: &str) -> bool {
    is_printed_as(error, text)
}

#[test]
fn longest_fault_prints_whole(rt: HostRuntime) {
    let fault = pair(&rt, &[b'k'; 64], &[b'v'; 256]);
    let text = format!(in rt.alloc(); "{fault}").expect(&rt, "memory");
    // The path, `(("`, the key, `", "`, the value and `"))`.
    assert_eq!(rt; text.as_str().len(), 49 + 3 + 64 + 4 + 256 + 3);
}

#[test]
fn errors_are_errors(rt: HostRuntime) {
    assert_eq!(rt;
        [
            is_reported_as(
                &ServiceNameError::InvalidContent,
                "ServiceNameError::InvalidContent",
            ),
            is_reported_as(
                &AttributeDefinitionError::ExceedsMaxSupportedAttributes,
                "AttributeDefinitionError::ExceedsMaxSupportedAttributes",
            ),
        ],
        [true; 2]
    );
}
