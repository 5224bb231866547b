ghost use Rattle.std.specs.Prelude.{◌≡◌, ◌⊎◌, List, Ok, Err, IfOk, false};
ghost use Rattle.pkg_manifest.specs.declared.value.Json.{Json as Value};
ghost use Rattle.pkg_manifest.specs.declared.value.Json.TheVariants.{Object};
ghost use Rattle.pkg_manifest.specs.declared.value.Member.{Member};
ghost use Rattle.pkg_manifest.specs.Grammar.{StandsFor};
ghost use Rattle.pkg_manifest.specs.Fields.{is_object, manifest_of};

use crate::fault::ManifestFault;
use crate::fields::from_members;
use crate::package::Manifest;
use crate::read::document;
use crate::value::Json;
use std::alloc::Global;

/// What the bytes of a `package.json` say.
pub fn manifest(alloc: Global, bytes: &[u8]) -> Result<Manifest, ManifestFault>
    // What `Ok` says.
    ensures value { IfOk result (λ m. (ms : List (Member Value)) × StandsFor bytes.now (Object ms)
        × (m ≡ manifest_of ms)) }

    // A text of the grammar is read, and as that manifest alone.
    ensures object { (ms : List (Member Value)) → StandsFor bytes.now (Object ms)
        → (result ≡ Ok (manifest_of ms)) ⊎ (result ≡ Err ManifestFault.NoMemory) }
    ensures not_object { (j : Value) → StandsFor bytes.now j → is_object j ≡ false
        → (result ≡ Err ManifestFault.NotObject) ⊎ (result ≡ Err ManifestFault.NoMemory) }

    // When each refusal comes.
    ensures is_not_object { result ≡ Err ManifestFault.NotObject
        → (j : Value) × StandsFor bytes.now j × (is_object j ≡ false) }
    ensures is_not_json { result ≡ Err ManifestFault.NotJson → (j : Value) → ¬ StandsFor bytes.now j }
{
    match document(alloc, bytes)? {
        Json::Object(members) => Ok(from_members(alloc, members)?),
        _ => Err(ManifestFault::NotObject),
    }
}
