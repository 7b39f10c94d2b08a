// What files without damage are.
ghost use Rattle.std.specs.Prelude.{◌≡◌, List, ℕ, Ok, None, Some};
ghost use Rattle.hs_host.specs.Files.{Five};
ghost use Rattle.hs_slots.specs.Points.{Point, StandFor, IsUnborn, slot};
ghost use Rattle.hs_damages.specs.declared.headers.Current.{Current};
ghost use Rattle.hs_damages.specs.Damages.{all_judged, point_of};
ghost use Rattle.hs_damages.specs.Meaning.{Meaning, Taken};
ghost use Rattle.hs_damages.specs.Sighting.{headers_of, sighted};

/// The headers show no damage and no current slot exactly where the files stand for nothing as yet. Where they show a current slot and
/// the groups are taken without damage, the files stand for the point that has just these payloads. And of files that stand for a
/// point the headers show its slot.
pub fn files_without_damage_are_read()
    ensures none { (files : Five (List ℕ)) → sighted (headers_of files) ≡ Ok None → IsUnborn files }
    ensures unborn { (files : Five (List ℕ)) → IsUnborn files → sighted (headers_of files) ≡ Ok None }
    ensures point { (m : Meaning) (files : Five (List ℕ)) (current : Current) (taken : Taken) → sighted (headers_of files) ≡ Ok (Some current) → all_judged m current files ≡ Ok taken → StandFor (point_of current taken) files }
    ensures slot { (p : Point) (files : Five (List ℕ)) → StandFor p files → sighted (headers_of files) ≡ Ok (Some (record { slot = slot p.second; epoch = p.epoch })) }
{}
