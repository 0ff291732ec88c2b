//! The places of the attributes that a query names.

#![tactic(auto)]

ghost use Rattle.std.specs.Prelude.{◌≡◌, ◌<◌, ◌≤◌, None, Some, IfErr, IfSome, IfOk, OnOk, length, map};
ghost use Rattle.db_model.specs.Item as item;
ghost use Rattle.db_model.specs.Typing.{first_false, is_attribute};
ghost use Rattle.session_plans.specs.Places as all;

use db_model::{Attribute, Few, Ident};

/// The place of the attribute of this name.
pub fn place_of(name: &Ident, attributes: &[Attribute]) -> Option<u8>
    requires { length attributes.now ≤ 8 }
    ensures place { result ≡ item.place_of name.now attributes.now }
    ensures below { IfSome result (λ k. k < length attributes.now) }
{
    for (at, attribute) in attributes.iter().enumerate() {
        if attribute.name == *name {
            return Some(at as u8);
        }
    }
    None
}

/// The places of the attributes of these names, or the number of the first that is none.
pub fn places_of(names: &[Ident], attributes: &[Attribute]) -> Result<Few<u8, 8>, u8>
    requires few { length names.now ≤ 8 }
    requires attributes { length attributes.now ≤ 8 }
    ensures places { IfOk result (λ places. all.places_named attributes.now names.now ≡ Some places) }
    ensures known { let are = map (is_attribute attributes.now) names.now in
        OnOk result (first_false 0 are ≡ None) }
    ensures missing { let are = map (is_attribute attributes.now) names.now in
        IfErr result (λ nth. first_false 0 are ≡ Some nth) }
{
    let mut places = Few::new();
    for (at, name) in names.iter().enumerate() {
        let Some(place) = place_of(name, attributes) else {
            return Err(at as u8 + 1);
        };
        places.push(place);
    }
    Ok(places)
}
