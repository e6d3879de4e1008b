//! What a name at the head of a statement means: an operation, or a call by its name.

ghost use Rattle.std.specs.Prelude.{◌≡◌, ◌≢◌, ◌<◌, ℕ, List, true, IsTrue, AllPairs, map, length};
ghost use Rattle.std.specs.Option.{option_map};
ghost use Rattle.ka_isa.specs.Operations.{named_of, name_of, operations, operation_meaning, meanings, code_in};
ghost use Rattle.ka_isa.specs.Keys.{code_at, sixbit_of, is_plain};
ghost use Rattle.ka_isa.specs.Tables.{are_by_name};

use crate::calls::{CALLS, Named, call_in, call_meaning};
use crate::mnemonics::mnemonic;
use word36::Word;

/// The names of all operations as they are sorted.
static NAMES: [&str; 320] = [
    "ADD", "ADDB", "ADDI", "ADDM", "AND", "ANDB", "ANDCA", "ANDCAB", "ANDCAI", "ANDCAM", "ANDCB",
    "ANDCBB", "ANDCBI", "ANDCBM", "ANDCM", "ANDCMB", "ANDCMI", "ANDCMM", "ANDI", "ANDM", "AOBJN",
    "AOBJP", "AOJ", "AOJA", "AOJE", "AOJG", "AOJGE", "AOJL", "AOJLE", "AOJN", "AOS", "AOSA",
    "AOSE", "AOSG", "AOSGE", "AOSL", "AOSLE", "AOSN", "ASH", "BLT", "CAI", "CAIA", "CAIE", "CAIG",
    "CAIGE", "CAIL", "CAILE", "CAIN", "CALLI", "CAM", "CAMA", "CAME", "CAMG", "CAMGE", "CAML",
    "CAMLE", "CAMN", "DPB", "EQV", "EQVB", "EQVI", "EQVM", "EXCH", "HLL", "HLLE", "HLLEI", "HLLEM",
    "HLLES", "HLLI", "HLLM", "HLLO", "HLLOI", "HLLOM", "HLLOS", "HLLS", "HLLZ", "HLLZI", "HLLZM",
    "HLLZS", "HLR", "HLRE", "HLREI", "HLREM", "HLRES", "HLRI", "HLRM", "HLRO", "HLROI", "HLROM",
    "HLROS", "HLRS", "HLRZ", "HLRZI", "HLRZM", "HLRZS", "HRL", "HRLE", "HRLEI", "HRLEM", "HRLES",
    "HRLI", "HRLM", "HRLO", "HRLOI", "HRLOM", "HRLOS", "HRLS", "HRLZ", "HRLZI", "HRLZM", "HRLZS",
    "HRR", "HRRE", "HRREI", "HRREM", "HRRES", "HRRI", "HRRM", "HRRO", "HRROI", "HRROM", "HRROS",
    "HRRS", "HRRZ", "HRRZI", "HRRZM", "HRRZS", "IBP", "IDIV", "IDIVB", "IDIVI", "IDIVM", "IDPB",
    "ILDB", "IMUL", "IMULB", "IMULI", "IMULM", "IOR", "IORB", "IORI", "IORM", "JFCL", "JFFO",
    "JRA", "JRST", "JSA", "JSP", "JSR", "JUMP", "JUMPA", "JUMPE", "JUMPG", "JUMPGE", "JUMPL",
    "JUMPLE", "JUMPN", "LDB", "LSH", "LSHC", "MOVE", "MOVEI", "MOVEM", "MOVES", "MOVM", "MOVMI",
    "MOVMM", "MOVMS", "MOVN", "MOVNI", "MOVNM", "MOVNS", "MOVS", "MOVSI", "MOVSM", "MOVSS", "MUL",
    "MULB", "MULI", "MULM", "ORCA", "ORCAB", "ORCAI", "ORCAM", "ORCB", "ORCBB", "ORCBI", "ORCBM",
    "ORCM", "ORCMB", "ORCMI", "ORCMM", "POP", "POPJ", "PUSH", "PUSHJ", "ROT", "ROTC", "SETA",
    "SETAB", "SETAI", "SETAM", "SETCA", "SETCAB", "SETCAI", "SETCAM", "SETCM", "SETCMB", "SETCMI",
    "SETCMM", "SETM", "SETMB", "SETMI", "SETMM", "SETO", "SETOB", "SETOI", "SETOM", "SETZ",
    "SETZB", "SETZI", "SETZM", "SKIP", "SKIPA", "SKIPE", "SKIPG", "SKIPGE", "SKIPL", "SKIPLE",
    "SKIPN", "SOJ", "SOJA", "SOJE", "SOJG", "SOJGE", "SOJL", "SOJLE", "SOJN", "SOS", "SOSA",
    "SOSE", "SOSG", "SOSGE", "SOSL", "SOSLE", "SOSN", "SUB", "SUBB", "SUBI", "SUBM", "TDC", "TDCA",
    "TDCE", "TDCN", "TDN", "TDNA", "TDNE", "TDNN", "TDO", "TDOA", "TDOE", "TDON", "TDZ", "TDZA",
    "TDZE", "TDZN", "TLC", "TLCA", "TLCE", "TLCN", "TLN", "TLNA", "TLNE", "TLNN", "TLO", "TLOA",
    "TLOE", "TLON", "TLZ", "TLZA", "TLZE", "TLZN", "TRC", "TRCA", "TRCE", "TRCN", "TRN", "TRNA",
    "TRNE", "TRNN", "TRO", "TROA", "TROE", "TRON", "TRZ", "TRZA", "TRZE", "TRZN", "TSC", "TSCA",
    "TSCE", "TSCN", "TSN", "TSNA", "TSNE", "TSNN", "TSO", "TSOA", "TSOE", "TSON", "TSZ", "TSZA",
    "TSZE", "TSZN", "TTCALL", "XCT", "XOR", "XORB", "XORI", "XORM",
];

/// The key of each name of `NAMES`: its characters in SIXBIT as one number, the first highest.
static KEYS: [u64; 320] = [
    0o414_444_000_000, // ADD
    0o414_444_420_000, // ADDB
    0o414_444_510_000, // ADDI
    0o414_444_550_000, // ADDM
    0o415_644_000_000, // AND
    0o415_644_420_000, // ANDB
    0o415_644_434_100, // ANDCA
    0o415_644_434_142, // ANDCAB
    0o415_644_434_151, // ANDCAI
    0o415_644_434_155, // ANDCAM
    0o415_644_434_200, // ANDCB
    0o415_644_434_242, // ANDCBB
    0o415_644_434_251, // ANDCBI
    0o415_644_434_255, // ANDCBM
    0o415_644_435_500, // ANDCM
    0o415_644_435_542, // ANDCMB
    0o415_644_435_551, // ANDCMI
    0o415_644_435_555, // ANDCMM
    0o415_644_510_000, // ANDI
    0o415_644_550_000, // ANDM
    0o415_742_525_600, // AOBJN
    0o415_742_526_000, // AOBJP
    0o415_752_000_000, // AOJ
    0o415_752_410_000, // AOJA
    0o415_752_450_000, // AOJE
    0o415_752_470_000, // AOJG
    0o415_752_474_500, // AOJGE
    0o415_752_540_000, // AOJL
    0o415_752_544_500, // AOJLE
    0o415_752_560_000, // AOJN
    0o415_763_000_000, // AOS
    0o415_763_410_000, // AOSA
    0o415_763_450_000, // AOSE
    0o415_763_470_000, // AOSG
    0o415_763_474_500, // AOSGE
    0o415_763_540_000, // AOSL
    0o415_763_544_500, // AOSLE
    0o415_763_560_000, // AOSN
    0o416_350_000_000, // ASH
    0o425_464_000_000, // BLT
    0o434_151_000_000, // CAI
    0o434_151_410_000, // CAIA
    0o434_151_450_000, // CAIE
    0o434_151_470_000, // CAIG
    0o434_151_474_500, // CAIGE
    0o434_151_540_000, // CAIL
    0o434_151_544_500, // CAILE
    0o434_151_560_000, // CAIN
    0o434_154_545_100, // CALLI
    0o434_155_000_000, // CAM
    0o434_155_410_000, // CAMA
    0o434_155_450_000, // CAME
    0o434_155_470_000, // CAMG
    0o434_155_474_500, // CAMGE
    0o434_155_540_000, // CAML
    0o434_155_544_500, // CAMLE
    0o434_155_560_000, // CAMN
    0o446_042_000_000, // DPB
    0o456_166_000_000, // EQV
    0o456_166_420_000, // EQVB
    0o456_166_510_000, // EQVI
    0o456_166_550_000, // EQVM
    0o457_043_500_000, // EXCH
    0o505_454_000_000, // HLL
    0o505_454_450_000, // HLLE
    0o505_454_455_100, // HLLEI
    0o505_454_455_500, // HLLEM
    0o505_454_456_300, // HLLES
    0o505_454_510_000, // HLLI
    0o505_454_550_000, // HLLM
    0o505_454_570_000, // HLLO
    0o505_454_575_100, // HLLOI
    0o505_454_575_500, // HLLOM
    0o505_454_576_300, // HLLOS
    0o505_454_630_000, // HLLS
    0o505_454_720_000, // HLLZ
    0o505_454_725_100, // HLLZI
    0o505_454_725_500, // HLLZM
    0o505_454_726_300, // HLLZS
    0o505_462_000_000, // HLR
    0o505_462_450_000, // HLRE
    0o505_462_455_100, // HLREI
    0o505_462_455_500, // HLREM
    0o505_462_456_300, // HLRES
    0o505_462_510_000, // HLRI
    0o505_462_550_000, // HLRM
    0o505_462_570_000, // HLRO
    0o505_462_575_100, // HLROI
    0o505_462_575_500, // HLROM
    0o505_462_576_300, // HLROS
    0o505_462_630_000, // HLRS
    0o505_462_720_000, // HLRZ
    0o505_462_725_100, // HLRZI
    0o505_462_725_500, // HLRZM
    0o505_462_726_300, // HLRZS
    0o506_254_000_000, // HRL
    0o506_254_450_000, // HRLE
    0o506_254_455_100, // HRLEI
    0o506_254_455_500, // HRLEM
    0o506_254_456_300, // HRLES
    0o506_254_510_000, // HRLI
    0o506_254_550_000, // HRLM
    0o506_254_570_000, // HRLO
    0o506_254_575_100, // HRLOI
    0o506_254_575_500, // HRLOM
    0o506_254_576_300, // HRLOS
    0o506_254_630_000, // HRLS
    0o506_254_720_000, // HRLZ
    0o506_254_725_100, // HRLZI
    0o506_254_725_500, // HRLZM
    0o506_254_726_300, // HRLZS
    0o506_262_000_000, // HRR
    0o506_262_450_000, // HRRE
    0o506_262_455_100, // HRREI
    0o506_262_455_500, // HRREM
    0o506_262_456_300, // HRRES
    0o506_262_510_000, // HRRI
    0o506_262_550_000, // HRRM
    0o506_262_570_000, // HRRO
    0o506_262_575_100, // HRROI
    0o506_262_575_500, // HRROM
    0o506_262_576_300, // HRROS
    0o506_262_630_000, // HRRS
    0o506_262_720_000, // HRRZ
    0o506_262_725_100, // HRRZI
    0o506_262_725_500, // HRRZM
    0o506_262_726_300, // HRRZS
    0o514_260_000_000, // IBP
    0o514_451_660_000, // IDIV
    0o514_451_664_200, // IDIVB
    0o514_451_665_100, // IDIVI
    0o514_451_665_500, // IDIVM
    0o514_460_420_000, // IDPB
    0o515_444_420_000, // ILDB
    0o515_565_540_000, // IMUL
    0o515_565_544_200, // IMULB
    0o515_565_545_100, // IMULI
    0o515_565_545_500, // IMULM
    0o515_762_000_000, // IOR
    0o515_762_420_000, // IORB
    0o515_762_510_000, // IORI
    0o515_762_550_000, // IORM
    0o524_643_540_000, // JFCL
    0o524_646_570_000, // JFFO
    0o526_241_000_000, // JRA
    0o526_263_640_000, // JRST
    0o526_341_000_000, // JSA
    0o526_360_000_000, // JSP
    0o526_362_000_000, // JSR
    0o526_555_600_000, // JUMP
    0o526_555_604_100, // JUMPA
    0o526_555_604_500, // JUMPE
    0o526_555_604_700, // JUMPG
    0o526_555_604_745, // JUMPGE
    0o526_555_605_400, // JUMPL
    0o526_555_605_445, // JUMPLE
    0o526_555_605_600, // JUMPN
    0o544_442_000_000, // LDB
    0o546_350_000_000, // LSH
    0o546_350_430_000, // LSHC
    0o555_766_450_000, // MOVE
    0o555_766_455_100, // MOVEI
    0o555_766_455_500, // MOVEM
    0o555_766_456_300, // MOVES
    0o555_766_550_000, // MOVM
    0o555_766_555_100, // MOVMI
    0o555_766_555_500, // MOVMM
    0o555_766_556_300, // MOVMS
    0o555_766_560_000, // MOVN
    0o555_766_565_100, // MOVNI
    0o555_766_565_500, // MOVNM
    0o555_766_566_300, // MOVNS
    0o555_766_630_000, // MOVS
    0o555_766_635_100, // MOVSI
    0o555_766_635_500, // MOVSM
    0o555_766_636_300, // MOVSS
    0o556_554_000_000, // MUL
    0o556_554_420_000, // MULB
    0o556_554_510_000, // MULI
    0o556_554_550_000, // MULM
    0o576_243_410_000, // ORCA
    0o576_243_414_200, // ORCAB
    0o576_243_415_100, // ORCAI
    0o576_243_415_500, // ORCAM
    0o576_243_420_000, // ORCB
    0o576_243_424_200, // ORCBB
    0o576_243_425_100, // ORCBI
    0o576_243_425_500, // ORCBM
    0o576_243_550_000, // ORCM
    0o576_243_554_200, // ORCMB
    0o576_243_555_100, // ORCMI
    0o576_243_555_500, // ORCMM
    0o605_760_000_000, // POP
    0o605_760_520_000, // POPJ
    0o606_563_500_000, // PUSH
    0o606_563_505_200, // PUSHJ
    0o625_764_000_000, // ROT
    0o625_764_430_000, // ROTC
    0o634_564_410_000, // SETA
    0o634_564_414_200, // SETAB
    0o634_564_415_100, // SETAI
    0o634_564_415_500, // SETAM
    0o634_564_434_100, // SETCA
    0o634_564_434_142, // SETCAB
    0o634_564_434_151, // SETCAI
    0o634_564_434_155, // SETCAM
    0o634_564_435_500, // SETCM
    0o634_564_435_542, // SETCMB
    0o634_564_435_551, // SETCMI
    0o634_564_435_555, // SETCMM
    0o634_564_550_000, // SETM
    0o634_564_554_200, // SETMB
    0o634_564_555_100, // SETMI
    0o634_564_555_500, // SETMM
    0o634_564_570_000, // SETO
    0o634_564_574_200, // SETOB
    0o634_564_575_100, // SETOI
    0o634_564_575_500, // SETOM
    0o634_564_720_000, // SETZ
    0o634_564_724_200, // SETZB
    0o634_564_725_100, // SETZI
    0o634_564_725_500, // SETZM
    0o635_351_600_000, // SKIP
    0o635_351_604_100, // SKIPA
    0o635_351_604_500, // SKIPE
    0o635_351_604_700, // SKIPG
    0o635_351_604_745, // SKIPGE
    0o635_351_605_400, // SKIPL
    0o635_351_605_445, // SKIPLE
    0o635_351_605_600, // SKIPN
    0o635_752_000_000, // SOJ
    0o635_752_410_000, // SOJA
    0o635_752_450_000, // SOJE
    0o635_752_470_000, // SOJG
    0o635_752_474_500, // SOJGE
    0o635_752_540_000, // SOJL
    0o635_752_544_500, // SOJLE
    0o635_752_560_000, // SOJN
    0o635_763_000_000, // SOS
    0o635_763_410_000, // SOSA
    0o635_763_450_000, // SOSE
    0o635_763_470_000, // SOSG
    0o635_763_474_500, // SOSGE
    0o635_763_540_000, // SOSL
    0o635_763_544_500, // SOSLE
    0o635_763_560_000, // SOSN
    0o636_542_000_000, // SUB
    0o636_542_420_000, // SUBB
    0o636_542_510_000, // SUBI
    0o636_542_550_000, // SUBM
    0o644_443_000_000, // TDC
    0o644_443_410_000, // TDCA
    0o644_443_450_000, // TDCE
    0o644_443_560_000, // TDCN
    0o644_456_000_000, // TDN
    0o644_456_410_000, // TDNA
    0o644_456_450_000, // TDNE
    0o644_456_560_000, // TDNN
    0o644_457_000_000, // TDO
    0o644_457_410_000, // TDOA
    0o644_457_450_000, // TDOE
    0o644_457_560_000, // TDON
    0o644_472_000_000, // TDZ
    0o644_472_410_000, // TDZA
    0o644_472_450_000, // TDZE
    0o644_472_560_000, // TDZN
    0o645_443_000_000, // TLC
    0o645_443_410_000, // TLCA
    0o645_443_450_000, // TLCE
    0o645_443_560_000, // TLCN
    0o645_456_000_000, // TLN
    0o645_456_410_000, // TLNA
    0o645_456_450_000, // TLNE
    0o645_456_560_000, // TLNN
    0o645_457_000_000, // TLO
    0o645_457_410_000, // TLOA
    0o645_457_450_000, // TLOE
    0o645_457_560_000, // TLON
    0o645_472_000_000, // TLZ
    0o645_472_410_000, // TLZA
    0o645_472_450_000, // TLZE
    0o645_472_560_000, // TLZN
    0o646_243_000_000, // TRC
    0o646_243_410_000, // TRCA
    0o646_243_450_000, // TRCE
    0o646_243_560_000, // TRCN
    0o646_256_000_000, // TRN
    0o646_256_410_000, // TRNA
    0o646_256_450_000, // TRNE
    0o646_256_560_000, // TRNN
    0o646_257_000_000, // TRO
    0o646_257_410_000, // TROA
    0o646_257_450_000, // TROE
    0o646_257_560_000, // TRON
    0o646_272_000_000, // TRZ
    0o646_272_410_000, // TRZA
    0o646_272_450_000, // TRZE
    0o646_272_560_000, // TRZN
    0o646_343_000_000, // TSC
    0o646_343_410_000, // TSCA
    0o646_343_450_000, // TSCE
    0o646_343_560_000, // TSCN
    0o646_356_000_000, // TSN
    0o646_356_410_000, // TSNA
    0o646_356_450_000, // TSNE
    0o646_356_560_000, // TSNN
    0o646_357_000_000, // TSO
    0o646_357_410_000, // TSOA
    0o646_357_450_000, // TSOE
    0o646_357_560_000, // TSON
    0o646_372_000_000, // TSZ
    0o646_372_410_000, // TSZA
    0o646_372_450_000, // TSZE
    0o646_372_560_000, // TSZN
    0o646_443_415_454, // TTCALL
    0o704_364_000_000, // XCT
    0o705_762_000_000, // XOR
    0o705_762_420_000, // XORB
    0o705_762_510_000, // XORI
    0o705_762_550_000, // XORM
];

/// The operation of each name of `NAMES`.
static CODES: [u16; 320] = [
    0o270, 0o273, 0o271, 0o272, 0o404, 0o407, 0o410, 0o413, 0o411, 0o412, 0o440, 0o443, 0o441,
    0o442, 0o420, 0o423, 0o421, 0o422, 0o405, 0o406, 0o253, 0o252, 0o340, 0o344, 0o342, 0o347,
    0o345, 0o341, 0o343, 0o346, 0o350, 0o354, 0o352, 0o357, 0o355, 0o351, 0o353, 0o356, 0o240,
    0o251, 0o300, 0o304, 0o302, 0o307, 0o305, 0o301, 0o303, 0o306, 0o47, 0o310, 0o314, 0o312,
    0o317, 0o315, 0o311, 0o313, 0o316, 0o137, 0o444, 0o447, 0o445, 0o446, 0o250, 0o500, 0o530,
    0o531, 0o532, 0o533, 0o501, 0o502, 0o520, 0o521, 0o522, 0o523, 0o503, 0o510, 0o511, 0o512,
    0o513, 0o544, 0o574, 0o575, 0o576, 0o577, 0o545, 0o546, 0o564, 0o565, 0o566, 0o567, 0o547,
    0o554, 0o555, 0o556, 0o557, 0o504, 0o534, 0o535, 0o536, 0o537, 0o505, 0o506, 0o524, 0o525,
    0o526, 0o527, 0o507, 0o514, 0o515, 0o516, 0o517, 0o540, 0o570, 0o571, 0o572, 0o573, 0o541,
    0o542, 0o560, 0o561, 0o562, 0o563, 0o543, 0o550, 0o551, 0o552, 0o553, 0o133, 0o230, 0o233,
    0o231, 0o232, 0o136, 0o134, 0o220, 0o223, 0o221, 0o222, 0o434, 0o437, 0o435, 0o436, 0o255,
    0o243, 0o267, 0o254, 0o266, 0o265, 0o264, 0o320, 0o324, 0o322, 0o327, 0o325, 0o321, 0o323,
    0o326, 0o135, 0o242, 0o246, 0o200, 0o201, 0o202, 0o203, 0o214, 0o215, 0o216, 0o217, 0o210,
    0o211, 0o212, 0o213, 0o204, 0o205, 0o206, 0o207, 0o224, 0o227, 0o225, 0o226, 0o454, 0o457,
    0o455, 0o456, 0o470, 0o473, 0o471, 0o472, 0o464, 0o467, 0o465, 0o466, 0o262, 0o263, 0o261,
    0o260, 0o241, 0o245, 0o424, 0o427, 0o425, 0o426, 0o450, 0o453, 0o451, 0o452, 0o460, 0o463,
    0o461, 0o462, 0o414, 0o417, 0o415, 0o416, 0o474, 0o477, 0o475, 0o476, 0o400, 0o403, 0o401,
    0o402, 0o330, 0o334, 0o332, 0o337, 0o335, 0o331, 0o333, 0o336, 0o360, 0o364, 0o362, 0o367,
    0o365, 0o361, 0o363, 0o366, 0o370, 0o374, 0o372, 0o377, 0o375, 0o371, 0o373, 0o376, 0o274,
    0o277, 0o275, 0o276, 0o650, 0o654, 0o652, 0o656, 0o610, 0o614, 0o612, 0o616, 0o670, 0o674,
    0o672, 0o676, 0o630, 0o634, 0o632, 0o636, 0o641, 0o645, 0o643, 0o647, 0o601, 0o605, 0o603,
    0o607, 0o661, 0o665, 0o663, 0o667, 0o621, 0o625, 0o623, 0o627, 0o640, 0o644, 0o642, 0o646,
    0o600, 0o604, 0o602, 0o606, 0o660, 0o664, 0o662, 0o666, 0o620, 0o624, 0o622, 0o626, 0o651,
    0o655, 0o653, 0o657, 0o611, 0o615, 0o613, 0o617, 0o671, 0o675, 0o673, 0o677, 0o631, 0o635,
    0o633, 0o637, 0o51, 0o256, 0o430, 0o433, 0o431, 0o432,
];

/// The code in SIXBIT of the character at a position of a name, a blank's behind the last.
fn code_at(name: &[u8], at: usize) -> u64
    ensures value { result ≡ code_at name.now at }
    ensures below { result < 64 }
{
    if at < name.len() {
        u64::from(name[at].saturating_sub(b' ') % 64)
    } else {
        0
    }
}

/// The key of a name.
fn key(name: &str) -> u64
    ensures { result ≡ sixbit_of name.now }
{
    let name = name.as_bytes();
    code_at(name, 0) * (1 << 30)
        + code_at(name, 1) * (1 << 24)
        + code_at(name, 2) * (1 << 18)
        + code_at(name, 3) * (1 << 12)
        + code_at(name, 4) * (1 << 6)
        + code_at(name, 5)
}

fn operation_in(names: &[&'static str], keys: &[u64], codes: &[u16], name: &str) -> Option<u16>
    requires { IsTrue (are_by_name (map (λ name. name.now) names.now) keys.now codes.now) }
    ensures { result ≡ code_in operations name.now }
{
    match keys.binary_search(&key(name)) {
        Ok(position) => {
            if names[position] == name {
                Some(codes[position])
            } else {
                None
            }
        }
        Err(_) => None,
    }
}

/// What the name of an operation means: the operation, with an AC and an address.
#[inline(always)]
fn operation_meaning(code: u16) -> Named
    requires { code < 512 }
    ensures { result ≡ operation_meaning code }
{
    Named {
        word: Word::low_bits(u64::from(code) << 27),
        ac: true,
        addr: true,
    }
}

/// What a name of at most six characters means that has this key, its characters in SIXBIT, where it is that of an
/// operation. No character of it is a blank.
#[inline(always)]
pub fn operation_of_key(key: u64) -> Option<Named>
    ensures { (name : List ℕ) → is_plain name ≡ true → sixbit_of name ≡ key
        → result ≡ option_map operation_meaning (code_in operations name) }
{
    match KEYS.binary_search(&key) {
        Ok(position) => Some(operation_meaning(CODES[position])),
        Err(_) => None,
    }
}

/// What a name means at the head of a statement: the word that it gives alone, and whether an AC and
/// an address may follow. Every operation takes both; a named CALLI takes an AC, MONRT. nothing, a
/// named function of TTCALL, HALT and JRSTF an address. None for a name that is none of these: upper
/// case, whole, at most six characters (DECsystem-10 Processor Reference Manual, TOPS-10 Monitor
/// Calls Manual).
pub fn named(name: &str) -> Option<Named>
    ensures { result ≡ named_of name.now }
{
    match operation_in(&NAMES, &KEYS, &CODES, name) {
        Some(code) => Some(operation_meaning(code)),
        None => {
            let call = call_in(&CALLS, name)?;
            Some(call_meaning(call))
        }
    }
}

/// What the name of an operation means: that operation, wherever it has a name. So no operation's
/// name is that of another, or of a call.
pub fn name_round_trip(op: u16) -> Option<Named>
    ensures { result ≡ option_map (λ _. operation_meaning op) (name_of op) }
{
    named(mnemonic(op)?)
}

/// How many names there are, of operations and of calls: no two of them are alike.
pub fn name_count() -> usize
    ensures count { result ≡ length meanings }
    ensures distinct { AllPairs (λ one other. one.name ≢ other.name) meanings }
{
    NAMES.len() + CALLS.len()
}
