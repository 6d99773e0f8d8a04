ghost use Rattle.std.specs.Prelude.{◌≡◌, pos, negsuc, Some, None};
ghost use Rattle.rv64_decode.specs.declared.memory.Width.TheVariants.{One, Four, Eight};
ghost use Rattle.linear_forms.specs.Forms.{pure};
ghost use Rattle.loop_data.specs.Equations.{plus_constant};
ghost use Rattle.affine_addresses.specs.AddressLaws.{AddressLaw, CellLaw, EachLaw};
ghost use Rattle.affine_addresses.specs.Worked.{pointer, addressed};

/// Where the forms hold at the word of an access, it accesses its bytes from the value of its form on.
pub fn addresses_are_values()
    ensures { AddressLaw }
{}

/// Each word that asks memory for anything is listed with its access, unless it accesses a cell.
pub fn each_access_is_listed()
    ensures cells { CellLaw }
    ensures each { EachLaw }
{}

/// Addresses at offsets from single registers, worked out by hand.
pub fn worked_addresses()
    ensures offset { addressed (pointer (pos 8) (pos 0)) 10 (negsuc 7) Eight
        ≡ Some (plus_constant (pointer (pos 8) (pos 0)) (negsuc 7)) }
    ensures downward { addressed (pointer (negsuc 7) (pos 0)) 10 (pos 4) Four
        ≡ Some (plus_constant (pointer (negsuc 7) (pos 0)) (pos 4)) }
    ensures byte { addressed (pointer (pos 3) (pos 1)) 10 (pos 0) One ≡ Some (pointer (pos 3) (pos 1)) }
    ensures absolute { addressed (pointer (pos 8) (pos 0)) 0 (pos 16) Eight ≡ Some (pure (pos 16)) }
    ensures half_of_the_width { addressed (pointer (pos 4) (pos 0)) 10 (pos 0) Eight ≡ None }
    ensures inside { addressed (pointer (pos 8) (pos 12)) 10 (pos 0) Eight ≡ None }
    ensures twice_inside { addressed (record (pointer (pos 8) (pos 0)) { third = pos 12 }) 10 (pos 0) Eight ≡ None }
    ensures no_form { addressed (pointer (pos 8) (pos 0)) 11 (pos 0) Eight ≡ None }
{}

ghost use Rattle.affine_addresses.specs.OneList.{OneListLaw, OneKeptListLaw, OneIrregularLaw, NoneIrregularLaw};

/// What is found of the accesses of a loop is determined by its definition: the list of them, or the least word that
/// accesses an address which is not regular.
pub fn one_list_of_accesses()
    ensures list { OneListLaw }
    ensures kept { OneKeptListLaw }
    ensures irregular { OneIrregularLaw }
    ensures none { NoneIrregularLaw }
{}
